//! Keys as traders and grids have them.
use crate::topic_matches;
use std::test::Fail;

fn matched(pattern: &str, key: &str) -> bool {
    topic_matches(pattern.as_bytes(), key.as_bytes())
}

#[test]
fn words_of_a_topic_key(rt: HostRuntime) -> Result<(), Fail> {
    assert!(rt; !matched("a.*", "a"));
    assert!(rt; matched("a.#", "a"));
    assert!(rt; matched("a.*", "a."));
    assert!(rt; matched("a.#", "a."));
    assert!(rt; !matched("a.*", "b"));
    assert!(rt; !matched("a.#", "b"));
    assert!(rt; matched("#", ""));
    assert!(rt; matched("", ""));
    assert!(rt; !matched("*", "a.b"));
    assert!(rt; matched("stock.*.nyse", "stock.ibm.nyse"));
    assert!(rt; !matched("stock.*.nyse", "stock.nyse"));
    Ok(())
}

#[test]
fn many_hashes(rt: HostRuntime) -> Result<(), Fail> {
    assert!(rt; matched("#.b.#.d", "a.b.c.b.d"));
    assert!(rt; !matched("#.b.#.d", "a.b.c.b.e"));
    assert!(rt; matched("#.a.b.#", "a.a.b"));
    assert!(rt; matched("#.#.#", "a"));
    assert!(rt;
        !matched(
            "#.a.#.a.#.a.#.a.#.a.#.a.#.b",
            "a.a.a.a.a.a.a.a.a.a.a.a.a.a.a.a.a.a.a.a"
        )
    );
    Ok(())
}
