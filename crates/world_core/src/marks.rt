ghost use Rattle.std.specs.Prelude.{◌≡◌, ◌≤◌, [], ◌∷◌, ◌++◌, length, slice_get};
ghost use Rattle.std.specs.Option.{option_copied, option_to_list};
ghost use Rattle.world_core.specs.Step.{ticket_marks, end_marks};

use run_marks::Mark;
use span_base::Call;
use std::marker::Model;
use ticket_rules::Stamp;
use wire_msg::Reply;

/// The marks of one event, two at most. They take no memory of their own. Contracts see them as
/// a list.
#[derive(Drop)]
pub struct Marks {
    first: Option<Mark>,
    // Counts only behind a first one.
    second: Option<Mark>,
}

impl Model for Marks {
    ghost use Rattle.std.specs.Prelude.{List, [], ◌∷◌};
    ghost use Rattle.std.specs.Option.{option_map_or, option_to_list};
    ghost use Rattle.run_marks.specs.declared.mark.Mark.{Mark};

    ghost Value = { List Mark };

    ghost view = { λ m. option_map_or (λ first. first ∷ option_to_list m.second) m.first [] };
}

impl Marks {
    /// No mark.
    pub fn none() -> Marks
        ensures { result ≡ [] }
    {
        Marks {
            first: None,
            second: None,
        }
    }

    /// One mark, and maybe one behind it.
    pub fn of(first: Mark, second: Option<Mark>) -> Marks
        ensures { result ≡ first ∷ option_to_list second }
    {
        Marks {
            first: Some(first),
            second,
        }
    }

    /// What a call that takes a message leaves: its new ticket and its end.
    pub fn of_call(call: Call, ticket: Option<Stamp>, end: Option<Reply>) -> Marks
        ensures { result ≡ ticket_marks call ticket ++ end_marks call end }
    {
        let second = match end {
            Some(reply) => Some(Mark::End { call, reply }),
            None => None,
        };
        match ticket {
            Some(stamp) => Marks {
                first: Some(Mark::Ticket { call, stamp }),
                second,
            },
            None => Marks {
                first: second,
                second: None,
            },
        }
    }

    /// The mark of this number, counted from 0.
    pub fn get(&self, number: usize) -> Option<&Mark>
        ensures { option_copied result ≡ slice_get self.now number }
    {
        let first = self.first.as_ref()?;
        match number {
            0 => Some(first),
            1 => self.second.as_ref(),
            _ => None,
        }
    }

    /// How many marks there are.
    pub fn len(&self) -> usize
        ensures number { result ≡ length self.now }
        ensures few { result ≤ 2 }
    {
        match (&self.first, &self.second) {
            (None, _) => 0,
            (Some(_), None) => 1,
            (Some(_), Some(_)) => 2,
        }
    }
}
