// The rules 3 to 19 of a model in their order: the first that is broken, and the lowest place that breaks it.
#![tactic(auto, using(crate::proofs::Steps::steps), unfolding(crate::specs::Stages::lowest_place))]

mod lowest;

ghost use Rattle.std.specs.Prelude.{◌≡◌, ◌≢◌, ◌+◌, ◌<◌, ◌≤◌, ℕ, length, get_or, IfErr, OnOk, MatchResult};
ghost use Rattle.std.specs.Option.{ForSome, option_map};
ghost use Rattle.csdl.specs.Accepted.{Kept};
ghost use Rattle.csdl.specs.Form.{rule4};
ghost use Rattle.csdl.specs.Paths.{rule14};
ghost use Rattle.csdl.specs.Model.{places};
ghost use Rattle.csdl.specs.Verdict.{Answer, form_stages, verdict};
ghost use Rattle.csdl.specs.Verdict.Answer.{refused};
ghost use Rattle.model_image.specs.Read.{model_read};
ghost use Rattle.model_rules.specs.Stages.{refusal, stages_6_to_10, stages_11_to_14, stages_15_to_19};
ghost use Rattle.path_resolution.specs.Coded.{Coded};

use csdl::Refusal;
use lookup::model::Lookup;
use lowest::{
    lowest_3, lowest_4, lowest_5, lowest_6, lowest_7, lowest_8, lowest_9, lowest_10, lowest_11,
    lowest_12, lowest_13, lowest_14, lowest_15, lowest_16, lowest_17, lowest_18, lowest_19,
};
use model_image::model::Model;

// The place of a record by its number in its table, whose first place is given.
pub fn place_in(first: u16, number: Option<u16>) -> Option<u16>
    requires { ForSome number (λ k. first + k < 65536) }
    ensures { result ≡ option_map (λ k. first + k) number }
{
    number.map(|k| first + k)
}

// The refusal by the rule at the place, if there is one.
pub fn refused_at(rule: u16, place: Option<u16>) -> Result<(), Refusal>
    ensures { result ≡ refusal rule place }
{
    match place {
        None => Ok(()),
        Some(place) => Err(Refusal { rule, place }),
    }
}

pub fn check_3_to_5(model: &Model) -> Result<(), Refusal>
    ensures { (o : Answer) → MatchResult result (λ _. o ≡ verdict (places (model_read model.now)) (form_stages (model_read model.now)) o) (λ r. refused r.rule r.place ≡ verdict (places (model_read model.now)) (form_stages (model_read model.now)) o) }
{
    refused_at(3, lowest_3(model))?;
    refused_at(4, lowest_4(model))?;
    refused_at(5, lowest_5(model))
}

pub fn check_6_to_10(model: &Model) -> Result<(), Refusal>
    ensures { (o : Answer) → MatchResult result (λ _. o ≡ verdict (places (model_read model.now)) (stages_6_to_10 (model_read model.now)) o) (λ r. refused r.rule r.place ≡ verdict (places (model_read model.now)) (stages_6_to_10 (model_read model.now)) o) }
{
    refused_at(6, lowest_6(model))?;
    refused_at(7, lowest_7(model))?;
    refused_at(8, lowest_8(model))?;
    refused_at(9, lowest_9(model))?;
    refused_at(10, lowest_10(model))
}

// Once rules 11 to 13 are unbroken, rule 14 keeps the codes of all segments; nothing else changes in the table of codes.
pub fn check_11_to_14(lookup: &Lookup, codes: &mut [u32]) -> Result<(), Refusal>
    requires { Kept (model_read lookup.now.hierarchy.model) rule4 × (length codes.old ≡ 1024) }
    ensures value { (o : Answer) → MatchResult result (λ _. o ≡ verdict (places (model_read lookup.now.hierarchy.model)) (stages_11_to_14 (model_read lookup.now.hierarchy.model)) o) (λ r. refused r.rule r.place ≡ verdict (places (model_read lookup.now.hierarchy.model)) (stages_11_to_14 (model_read lookup.now.hierarchy.model)) o) }
    ensures coded { OnOk result (Coded (model_read lookup.now.hierarchy.model) codes.new) }
    ensures err { IfErr result (λ r. (r.rule ≢ 14 → codes.new ≡ codes.old) × (r.rule ≡ 14 → Coded (model_read lookup.now.hierarchy.model) codes.new)) }
    ensures codes_len_unchanged { (length codes.new ≡ length codes.old) × ((g : ℕ) → (model_read lookup.now.hierarchy.model).segments ≤ g → get_or codes.new g 0 ≡ get_or codes.old g 0) }
{
    refused_at(11, lowest_11(lookup))?;
    refused_at(12, lowest_12(&lookup.hierarchy))?;
    refused_at(13, lowest_13(&lookup.hierarchy.model))?;
    refused_at(14, lowest_14(lookup, codes))
}

pub fn check_15_to_19(lookup: &Lookup, codes: &[u32]) -> Result<(), Refusal>
    requires { Coded (model_read lookup.now.hierarchy.model) codes.now × Kept (model_read lookup.now.hierarchy.model) rule4 × Kept (model_read lookup.now.hierarchy.model) rule14 }
    ensures { (o : Answer) → MatchResult result (λ _. o ≡ verdict (places (model_read lookup.now.hierarchy.model)) (stages_15_to_19 (model_read lookup.now.hierarchy.model)) o) (λ r. refused r.rule r.place ≡ verdict (places (model_read lookup.now.hierarchy.model)) (stages_15_to_19 (model_read lookup.now.hierarchy.model)) o) }
{
    refused_at(15, lowest_15(lookup, codes))?;
    refused_at(16, lowest_16(&lookup.hierarchy.model, codes))?;
    refused_at(17, lowest_17(&lookup.hierarchy, codes))?;
    refused_at(18, lowest_18(&lookup.hierarchy))?;
    refused_at(19, lowest_19(lookup, codes))
}
