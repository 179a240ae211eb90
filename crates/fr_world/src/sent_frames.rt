ghost use Rattle.std.specs.Prelude.{◌≡◌, ◌↔◌, ◌⊎◌, ℕ, ◌<◌, ◌≤◌, length, None};
ghost use Rattle.fr_base.specs.declared.channel.Channel.{Channel};
ghost use Rattle.fr_cluster.specs.Setting.{Setting};
ghost use Rattle.fr_cluster.specs.Values.{amount};
ghost use Rattle.fr_cluster.specs.declared.names.ParamName.TheVariants as name;
ghost use Rattle.fr_pool.specs.Pool.{PoolView, IsFree};
ghost use Rattle.fr_history.specs.Cycles.{told_of};
ghost use Rattle.fr_history.specs.Next.{cycles_of};
ghost use Rattle.fr_air.specs.Memory.{cell_of, frame_in_cell, held_after, place_of_slot, IsPoolOf};
ghost use Rattle.fr_world.specs.World.{memory_of, setting_after, world_cycles, WorldView};
ghost use Rattle.fr_world.specs.Last.{IsLastSent, IsOfOne};

/// A law: what `World::last` answers for a static slot on a channel is the frame of the latest cycle so far in which a
/// correct active node with a row sent there, as it was sent, whatever was done to it on its way; None exactly where none
/// did. In a slot behind the static slots nothing is ever sent.
pub fn a_cell_holds_the_last_frame_sent()
    ensures last { (x : Setting) (n slot : ℕ) (channel : Channel) →
        1 ≤ slot → slot ≤ amount x.params name.gNumberOfStaticSlots →
        IsLastSent x (told_of (cycles_of x n)) slot channel
        (frame_in_cell (held_after x (cycles_of x n)) (place_of_slot slot channel)) }
    ensures never { (x : Setting) (n slot : ℕ) (channel : Channel) → amount x.params name.gNumberOfStaticSlots < slot →
        frame_in_cell (held_after x (cycles_of x n)) (place_of_slot slot channel) ≡ None }
    ensures world { (w : WorldView) (slot : ℕ) (channel : Channel) →
        1 ≤ slot → slot ≤ amount w.params name.gNumberOfStaticSlots →
        IsLastSent (setting_after w) (told_of (world_cycles w)) slot channel
        (frame_in_cell (memory_of w).held (place_of_slot slot channel)) }
{}

/// A law: each cell of the pool of a world (`World::pool`) is free, or it is the cell of exactly one static slot on one
/// channel (`World::cell`), and the bytes at its front are the last frame that was sent there.
pub fn each_cell_is_free_or_of_one_slot_and_channel()
    ensures { (w : WorldView) (pool : PoolView) (cell : ℕ) → IsPoolOf (memory_of w) pool → cell < length pool.out →
        IsFree pool cell ⊎ IsOfOne w pool cell }
{}

/// A law: `World::cell` is None exactly where `World::last` is: exactly where no correct active node sent a frame so far.
pub fn a_cell_is_there_where_a_frame_is()
    ensures { (w : WorldView) (slot : ℕ) (channel : Channel) →
        (cell_of (memory_of w).held (place_of_slot slot channel) ≡ None) ↔
        (frame_in_cell (memory_of w).held (place_of_slot slot channel) ≡ None) }
{}
