// What a line asks for, before anything is put into the slices.
ghost use Rattle.std.specs.Prelude.{◌≡◌, ◌≤◌, length};
ghost use Rattle.tokens.specs.Longest.{longest};
ghost use Rattle.mmcif.specs.Acts.{row_act, act_by};
ghost use Rattle.mmcif.specs.Plans.{plan_of};

use acts::Act;
use line_states::{Does, Heads};
use refusals::Reason;
use rows::{Columns, Settings, Site};
use tokens::LONGEST;

#[derive(Clone, Copy)]
pub struct Plan {
    pub heads: Heads,
    pub act: Act,
}

fn row_act(row: Result<Option<Site>, Reason>) -> Act
    ensures { result ≡ row_act row }
{
    match row {
        Err(why) => Act::Refuse(why),
        Ok(None) => Act::Skip,
        Ok(Some(site)) => Act::Keep(site),
    }
}

fn act_by(settings: Settings, line: &[u8], columns: Columns, does: Does) -> Act
    requires { length line.now ≤ longest }
    ensures { result ≡ act_by settings line.now columns does }
{
    match does {
        Does::Nothing => Act::Pass,
        Does::Row => row_act(rows::row_of(settings, rows::fields_of(columns, line))),
        Does::TooManyHeaders => Act::Refuse(Reason::TooManyHeaders),
    }
}

// The length first, then what the states say, then the rules of a row. The state after a line too long does not matter.
pub(crate) fn plan_of(settings: Settings, heads: Heads, line: &[u8]) -> Plan
    ensures { result ≡ plan_of settings heads line.now }
{
    if LONGEST < line.len() {
        return Plan {
            heads,
            act: Act::Refuse(Reason::LineTooLong),
        };
    }
    let moved = line_states::read_line(heads, line);
    let heads = moved.heads;
    let act = act_by(settings, line, heads.columns, moved.does);
    Plan { heads, act }
}
