//! Each rule of the check has its words; and the places of refusals.
use job_format::{Part, Place, Refusal, Rule, Stage};
use rule_words::{RuleName, Spot, kind_named};
use std::alloc::{AllocError, Global};
use std::test::*;

/// The stages, and the number of the last rule of each.
const STAGES: [(Stage, u8); 10] = [
    (Stage::F, 7),
    (Stage::M, 5),
    (Stage::S, 27),
    (Stage::H, 1),
    (Stage::B, 19),
    (Stage::A, 10),
    (Stage::U, 9),
    (Stage::G, 13),
    (Stage::X, 1),
    (Stage::E, 13),
];

/// Whether the rule has a sentence of one line that a terminal shows whole, and an explanation.
fn has_words(stage: Stage, number: u8) -> bool {
    match RuleName::of_rule(Rule { stage, number }).words() {
        Some(words) => {
            let bytes = words.sentence.as_bytes();
            let short = !bytes.is_empty() && bytes.len() <= 140 && !bytes.contains(&b'\n');
            short && !words.explanation.is_empty()
        }
        None => false,
    }
}

#[test]
fn each_rule_has_words(rt: HostRuntime) -> Result<(), Fail> {
    for (stage, last) in STAGES {
        for number in 1..=last {
            let missing = stage == Stage::F && number == 6;
            assert_eq!(rt; has_words(stage, number), !missing, "{stage}{number}");
        }
        assert!(rt; !has_words(stage, 0));
        assert!(rt; !has_words(stage, last.wrapping_add(1)));
    }
    for kind in [b"1", b"2", b"3", b"4", b"5"] {
        assert!(rt; kind_named(kind).is_some());
    }
    assert!(rt; kind_named(b"0").is_none());
    Ok(())
}

/// The place of a refusal by rule 2 of a stage, at this byte of a part of number 1.
fn place_at(alloc: Global, stage: Stage, part: Part, at: u64) -> Result<String, AllocError> {
    let rule = Rule { stage, number: 2 };
    let place = Place { part, index: 1, at };
    let refusal = Refusal { rule, place };
    format!(in alloc; "{}", Spot { refusal })
}

#[test]
fn a_place_is_counted_as_a_person_does(rt: HostRuntime) -> Result<(), Fail> {
    for (stage, part, at, wanted) in [
        (Stage::F, Part::Header, 28, "header, byte 28"),
        (Stage::G, Part::JobEntry, 60, "frame of job 1, surface 3"),
        (Stage::H, Part::Handles, 4, "handles of job 1, handle 1"),
        (Stage::X, Part::JobEntry, 12, "entry of job 1, byte 12"),
    ] {
        assert_eq!(rt; place_at(rt.alloc(), stage, part, at)?.as_str(), wanted);
    }
    Ok(())
}
