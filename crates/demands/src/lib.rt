// An answer as the one 64-bit number that a caller in C gets: specs/Word says which. What the calls owe to a caller stands in
// specs/Demands, and proofs/ prove it from the equations of their contracts.
#![tactic(auto, unfolding(crate::specs::Word::word, csdl::specs::Verdict::model_means, csdl::specs::Verdict::instance_means, csdl::specs::Verdict::walk_means))]

ghost use Rattle.std.specs.Prelude.{◌≡◌, ◌+◌, ◌*◌, Result, Ok, Err};
ghost use Rattle.csdl.specs.Verdict.{Answer, model_means, instance_means, walk_means};
ghost use Rattle.csdl.specs.Verdict.Answer.{refused};
ghost use Rattle.csdl.specs.declared.Refusal.{Refusal};
ghost use Rattle.demands.specs.Refusals.{model_refused, instance_refused, walk_refused};
ghost use Rattle.demands.specs.Word.{word};

use csdl::{Refusal, Walked};

// What a call reports where it accepts.
pub trait Report {
    ghost means: { Result Self Refusal → Answer };

    // The numbers that it reports, as one.
    fn number(self) -> u64
        ensures { result ≡ word (means (Ok self)) };

    ghost refuses: { (r : Refusal) → means (Err r) ≡ refused r.rule r.place };
}

// A model reports its number of segments.
impl Report for u16 {
    ghost means = { model_means };

    fn number(self) -> u64 {
        u64::from(self)
    }

    ghost refuses = { model_refused };
}

// An instance and members report nothing.
impl Report for () {
    ghost means = { instance_means };

    fn number(self) -> u64 {
        0
    }

    ghost refuses = { instance_refused };
}

impl Report for Walked {
    ghost means = { walk_means };

    fn number(self) -> u64 {
        u64::from(self.results) * 65536 + u64::from(self.opened)
    }

    ghost refuses = { walk_refused };
}

// A refusal's two numbers in one.
fn refusal(rule: u16, place: u16) -> u64
    ensures { result ≡ rule * 4294967296 + place }
{
    u64::from(rule) * 4294967296 + u64::from(place)
}

pub fn word_of<T: Report>(answer: Result<T, Refusal>) -> u64
    ensures { result ≡ word (T.means answer) }
{
    match answer {
        Ok(report) => report.number(),
        Err(Refusal { rule, place }) => refusal(rule, place),
    }
}
