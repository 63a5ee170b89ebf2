//! What is asked by the texts of options. Which texts are none are command lines of `explore`.
use explore_parts::read_asked;
use outcome_text::{OptionFault, Options, Rule};
use std::alloc::Global;

const NONE: Options<'static> = Options {
    actors: &[],
    cuts: None,
    begin: None,
    states: None,
    memory: None,
    outside: false,
    when: &[],
    never: &[],
    always: &[],
};

const ALL: Options<'static> = Options {
    actors: &["1", "0"],
    cuts: Some("1000000"),
    begin: Some("1,0*2"),
    states: Some("1"),
    memory: Some("1000000"),
    outside: true,
    when: &["outside 1 0"],
    never: &["outside 0 1"],
    always: &["held 1 1", "row"],
};

fn reads_all(alloc: Global) -> Result<bool, OptionFault> {
    let asked = read_asked(alloc, ALL)?;
    let rules = match asked.properties.as_slice() {
        [first, second, third, fourth] => [first.rule, second.rule, third.rule, fourth.rule],
        _ => [Rule::Never, Rule::Never, Rule::Never, Rule::Never],
    };
    Ok(
        asked.named.as_slice() == [1, 0].as_slice()
            && asked.limits.scope.cuts == Some(1_000_000)
            && asked.limits.scope.begin.as_slice() == [1, 0, 0].as_slice()
            && asked.limits.states == 1
            && asked.memory == Some(1_000_000)
            && asked.outside
            && rules == [Rule::When, Rule::Never, Rule::Always, Rule::Always],
    )
}

fn reads_none(alloc: Global) -> Result<bool, OptionFault> {
    let asked = read_asked(alloc, NONE)?;
    Ok(
        asked.named.is_empty()
            && asked.limits.scope.cuts.is_none()
            && asked.limits.scope.begin.is_empty()
            && asked.limits.states == 100_000
            && asked.memory.is_none(),
    )
}

#[test]
fn reads_options(rt: HostRuntime) {
    assert!(rt; reads_all(rt.alloc()) == Ok(true), "all");
    assert!(rt; reads_none(rt.alloc()) == Ok(true), "none");
}
