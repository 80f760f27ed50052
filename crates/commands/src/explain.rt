//! All rules, as `explain --list` says them.
ghost use Rattle.std.specs.Prelude.{◌≡◌, ◌++◌, IfOk, OnOk};
ghost use Rattle.std.specs.List.{flat_map};
ghost use Rattle.commands.specs.Topics.{rule_row, family_rows};

use job_format::Stage;
use rule_words::{Family, RuleName};
use std::alloc::{AllocError, Global};

/// All families of rules, as `explain --list` has them.
pub(crate) const FAMILIES: [Family; 15] = [
    Family::Check(Stage::F),
    Family::Check(Stage::M),
    Family::Check(Stage::S),
    Family::Check(Stage::H),
    Family::Check(Stage::B),
    Family::Check(Stage::A),
    Family::Check(Stage::U),
    Family::Check(Stage::G),
    Family::Check(Stage::X),
    Family::Check(Stage::E),
    Family::O,
    Family::Q,
    Family::J,
    Family::V,
    Family::Kind,
];

/// Adds the rule and its sentence, where there is one of this name.
#[tactic(auto, unfolding(crate::specs::Topics::rule_row))]
fn put_rule(alloc: Global, text: &mut Vec<u8>, name: RuleName) -> Result<(), AllocError>
    ensures { OnOk result (text.new.items ≡ text.old.items ++ rule_row name) }
{
    let Some(words) = name.words() else {
        return Ok(());
    };
    let line = format!(in alloc; "{name}: {}\n", words.sentence)?;
    text.extend_from_slice(line.as_bytes())?;
    Ok(())
}

/// The rules of a family.
#[tactic(auto, unfolding(crate::specs::Topics::family_rows), using(crate::proofs::Rules::rows_none, crate::proofs::Rules::rows_more))]
fn family_rows(alloc: Global, family: Family) -> Result<Vec<u8>, AllocError>
    ensures { IfOk result (λ text. text.items ≡ family_rows family) }
{
    let mut text = Vec::new(alloc);
    let mut number: u8 = 0;
    while number < 255 {
        number += 1;
        put_rule(alloc, &mut text, RuleName::new(family, number))?;
    }
    Ok(text)
}

/// Adds the rules of a family.
fn put_family(alloc: Global, text: &mut Vec<u8>, family: Family) -> Result<(), AllocError>
    ensures { OnOk result (text.new.items ≡ text.old.items ++ family_rows family) }
{
    let rows = family_rows(alloc, family)?;
    text.extend_from_slice(&rows)?;
    Ok(())
}

/// The rules of these families.
pub(crate) fn rule_rows(alloc: Global, families: &[Family]) -> Result<Vec<u8>, AllocError>
    ensures { IfOk result (λ text. text.items ≡ flat_map family_rows families.now) }
{
    let mut text = Vec::new(alloc);
    for family in families {
        put_family(alloc, &mut text, *family)?;
    }
    Ok(text)
}
