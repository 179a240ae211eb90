ghost use Rattle.std.specs.Prelude.{◌≡◌, ◌==◌, IfSome, IsNone};

/// One of the two channels of a cluster, A or B.
#[derive(Clone, Copy, Debug, PartialEq, Eq)]
pub enum Channel {
    A,
    B,
}

impl Channel {
    ghost use Rattle.fr_base.specs.declared.channel.Channel.{Channel};
    ghost use Rattle.fr_base.specs.Channels.{channel_of, letter};
    ghost use Rattle.fr_base.specs.Rows.{channel_rank};

    /// Whether it is this channel.
    pub fn is_same(self, other: Channel) -> bool
        ensures { result ≡ (channel_rank self == channel_rank other) }
    {
        self == other
    }

    /// Its letter.
    pub fn letter(self) -> &'static [u8]
        ensures { result.now ≡ letter self }
    {
        match self {
            Channel::A => b"A",
            Channel::B => b"B",
        }
    }

    /// The channel that a text spells, `A` or `B`; None for every other text.
    pub fn spelt(text: &[u8]) -> Option<Channel>
        ensures value { result ≡ channel_of text.now }
        ensures found { IfSome result (λ channel. text.now ≡ letter channel) }
        ensures none { IsNone result → (channel : Channel) → text.now ≡ letter channel → ⊥ }
    {
        if text == b"A".as_slice() {
            Some(Channel::A)
        } else if text == b"B".as_slice() {
            Some(Channel::B)
        } else {
            None
        }
    }
}
