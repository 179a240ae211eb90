ghost use Rattle.std.specs.Prelude.{◌≡◌, ◌≤◌, ◌-◌, ◌||◌, IfOk};
ghost use Rattle.fr_base.specs.Device.{Puts};
ghost use Rattle.fr_text.specs.Lines.{joined_lines};
ghost use Rattle.fr_cold.specs.Node.{is_leading};
ghost use Rattle.fr_cold.specs.Cold.{StandsForStartup, leads_left, state_in};
ghost use Rattle.fr_cold.specs.ColdText.{IsAtEnd, cold_text, connected_line, counts_line, does_any_lead, startup_head, lead_line, lead_text, leading_line, leading_lines, leading_text};

use crate::connected::{first_apart, starter_count};
use crate::{Cold, Lead, Power};
use fr_base::{NodeId, PutFault, Sink};
use fr_cluster::Params;
use fr_text::Piece::{Natural, Signed, Word};
use fr_text::{Line, line_of, put_line, put_lines, put_text};

// Writes who leads the startup of these parameters and this power file. Puts have whole lines.
pub(crate) fn print<O: Sink>(params: &Params, power: &Power, out: &mut O) -> Result<(), PutFault>
    ensures { Puts result (O.state out.old) (O.state out.new) (cold_text params.now power.now) }
{
    put_lines(&head(params, power), out)?;
    let mut cold = Cold::new(params);
    put_leads(&mut cold, params, power, out)?;
    put_leading(&cold, out)
}

// How many coldstart nodes and cycles there are, and whether every two of the nodes share a channel.
fn head(params: &Params, power: &Power) -> [Option<Line>; 2]
    ensures { joined_lines result ≡ startup_head params.now power.now }
{
    [
        Some(counts(params, power)),
        Some(connected(first_apart(params))),
    ]
}

fn counts(params: &Params, power: &Power) -> Line
    ensures { result ≡ counts_line params.now power.now }
{
    line_of(&[
        Word(b"coldstart "),
        Natural(starter_count(params)),
        Word(b" cycles "),
        Natural(u64::from(power.cycles())),
    ])
}

fn connected(apart: Option<(NodeId, NodeId)>) -> Line
    ensures { result ≡ connected_line apart }
{
    match apart {
        None => line_of(&[Word(b"connected yes")]),
        Some((a, b)) => line_of(&[
            Word(b"connected no "),
            Natural(u64::from(a.0)),
            Word(b" "),
            Natural(u64::from(b.0)),
        ]),
    }
}

// Writes the begins of leading that are still to be told, up to the end of the run. There are at most 166 of a node.
fn put_leads<O: Sink>(
    cold: &mut Cold,
    params: &Params,
    power: &Power,
    out: &mut O,
) -> Result<(), PutFault>
    requires { StandsForStartup params.now power.now cold.old }
    ensures puts { Puts result (O.state out.old) (O.state out.new)
        (lead_text (leads_left params.now power.now cold.old)) }
    ensures over { IfOk result (λ _. IsAtEnd params.now power.now cold.new) }
{
    match cold.next(params, power) {
        None => Ok(()),
        Some(lead) => {
            put_lead(lead, out)?;
            put_leads(cold, params, power, out)
        }
    }
}

fn put_lead<O: Sink>(lead: Lead, out: &mut O) -> Result<(), PutFault>
    ensures { Puts result (O.state out.old) (O.state out.new) (lead_line lead) }
{
    let line = line_of(&[
        Word(b"lead "),
        Natural(u64::from(lead.node.0)),
        Word(b" at "),
        Signed(lead.at),
    ]);
    put_line(&line, out)
}

// Writes the nodes that lead, or that there is none.
fn put_leading<O: Sink>(cold: &Cold, out: &mut O) -> Result<(), PutFault>
    ensures { Puts result (O.state out.old) (O.state out.new) (leading_text (state_in cold.now.states)) }
{
    if does_any_lead(cold) {
        put_each_leading(cold, 1, out)
    } else {
        put_text(b"leading none\n", out)
    }
}

fn does_any_lead(cold: &Cold) -> bool
    ensures { result ≡ does_any_lead (state_in cold.now.states) 64 }
{
    let mut any = false;
    for number in 1..65 {
        any = either(any, cold.leads(NodeId(number)));
    }
    any
}

fn either(first: bool, second: bool) -> bool
    ensures { result ≡ (first || second) }
{
    first || second
}

// Writes the nodes from a number on that lead.
fn put_each_leading<O: Sink>(cold: &Cold, number: u8, out: &mut O) -> Result<(), PutFault>
    requires from { 1 ≤ number }
    requires to { number ≤ 65 }
    ensures { Puts result (O.state out.old) (O.state out.new)
        (leading_lines (state_in cold.now.states) number (65 - number)) }
{
    if number > 64 {
        return Ok(());
    }
    put_if_leading(cold, NodeId(number), out)?;
    put_each_leading(cold, number + 1, out)
}

fn put_if_leading<O: Sink>(cold: &Cold, node: NodeId, out: &mut O) -> Result<(), PutFault>
    ensures { Puts result (O.state out.old) (O.state out.new)
        (leading_line (is_leading (state_in cold.now.states node)) node) }
{
    if cold.leads(node) {
        put_lines(
            &[Some(line_of(&[Word(b"leading "), Natural(u64::from(node.0))]))],
            out,
        )
    } else {
        Ok(())
    }
}
