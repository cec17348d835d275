use grammar::grammar::Grammar;
use grammar::rule::Symbol;
use rulefile::loaded::LoadedGrammar;
use std::test::Fail;

// Number and line of the fault if a file is refused.
pub(crate) fn fault_of(file: &[u8]) -> Option<(u8, u16)> {
    let fault = LoadedGrammar::load(file).err()?;
    Some((fault.number(), fault.place().position().line))
}

#[test]
fn first_lines(rt: HostRuntime) {
    assert_eq!(rt; fault_of(b""), Some((2, 1)));
    assert_eq!(rt; fault_of(b"\n"), Some((2, 1)));
    assert_eq!(rt;
        fault_of(b"left sym1 rel1 sym2 rel2 sym3 rel3"),
        Some((6, 0))
    );
    assert_eq!(rt;
        fault_of(b"left sym1 rel1 sym2 rel2 sym3 rel3 \n"),
        Some((2, 1))
    );
    assert_eq!(rt;
        fault_of(b"left sym1 rel1 sym2 rel2 sym3 sym3\n"),
        Some((2, 1))
    );
}

#[test]
fn line_ends(rt: HostRuntime) {
    assert_eq!(rt;
        fault_of(b"left sym1 rel1 sym2 rel2 sym3 rel3\nA name = - - - -"),
        None
    );
    assert_eq!(rt;
        fault_of(b"left sym1 rel1 sym2 rel2 sym3 rel3\nA name = - - - -\n"),
        None
    );
    assert_eq!(rt;
        fault_of(b"left sym1 rel1 sym2 rel2 sym3 rel3\nA name = - - - -\n\n"),
        Some((3, 3))
    );
    assert_eq!(rt;
        fault_of(b"left sym1 rel1 sym2 rel2 sym3 rel3\nA  name = - - - -\n"),
        Some((3, 2))
    );
    assert_eq!(rt;
        fault_of(b"left sym1 rel1 sym2 rel2 sym3 rel3\nA name = - - - - \n"),
        Some((3, 2))
    );
    assert_eq!(rt;
        fault_of(b"left sym1 rel1 sym2 rel2 sym3 rel3\nA\tname = - - - -\n"),
        Some((1, 0))
    );
}

#[test]
fn words(rt: HostRuntime) {
    assert_eq!(rt;
        fault_of(b"left sym1 rel1 sym2 rel2 sym3 rel3\nA ' = - - - -\n"),
        Some((4, 2))
    );
    assert_eq!(rt;
        fault_of(b"left sym1 rel1 sym2 rel2 sym3 rel3\nA '' = - - - -\n"),
        Some((4, 2))
    );
    assert_eq!(rt;
        fault_of(b"left sym1 rel1 sym2 rel2 sym3 rel3\nA ''' = - - - -\n"),
        Some((4, 2))
    );
    assert_eq!(rt;
        fault_of(b"left sym1 rel1 sym2 rel2 sym3 rel3\nA 'abcdefghijkl' = - - - -\n"),
        None
    );
    assert_eq!(rt;
        fault_of(b"left sym1 rel1 sym2 rel2 sym3 rel3\nA 'abcdefghijklm' = - - - -\n"),
        Some((4, 2))
    );
    assert_eq!(rt;
        fault_of(b"left sym1 rel1 sym2 rel2 sym3 rel3\nA '-' = - - - -\n"),
        None
    );
    assert_eq!(rt;
        fault_of(b"left sym1 rel1 sym2 rel2 sym3 rel3\nA '3' = - - - -\n"),
        Some((4, 2))
    );
}

#[test]
fn items(rt: HostRuntime) {
    assert_eq!(rt;
        fault_of(b"left sym1 rel1 sym2 rel2 sym3 rel3\n- name = - - - -\n"),
        Some((4, 2))
    );
    assert_eq!(rt;
        fault_of(b"left sym1 rel1 sym2 rel2 sym3 rel3\nA name =!! - - - -\n"),
        Some((4, 2))
    );
    assert_eq!(rt;
        fault_of(b"left sym1 rel1 sym2 rel2 sym3 rel3\nA name = - - name =\n"),
        Some((5, 2))
    );
    assert_eq!(rt;
        fault_of(b"left sym1 rel1 sym2 rel2 sym3 rel3\nA name = - = - -\n"),
        Some((5, 2))
    );
    assert_eq!(rt;
        fault_of(b"left sym1 rel1 sym2 rel2 sym3 rel3\nA A = - - - -\n"),
        Some((6, 0))
    );
    assert_eq!(rt;
        fault_of(b"left sym1 rel1 sym2 rel2 sym3 rel3\nA name = - - - -\nA A = - - - -\n"),
        Some((7, 3))
    );
    assert_eq!(rt;
        fault_of(b"left sym1 rel1 sym2 rel2 sym3 rel3\nA x = - - - -\n- -\n"),
        Some((3, 3))
    );
}

// Symbols are numbered from left to sym3, whatever the order of the columns.
#[test]
fn columns_in_another_order(rt: HostRuntime) -> Result<(), Fail> {
    let grammar = LoadedGrammar::load(
        b"sym2 rel2 sym1 rel1 sym3 rel3 left\nC > B = - - A\nquote = name = - - B\n",
    ).map_err(|_| Fail::new("refused"))?;
    assert_eq!(rt; grammar.nonterminals(), 3);
    assert_eq!(rt; grammar.terminal(b"x"), Some(0));
    assert_eq!(rt; grammar.terminal(b"\""), Some(1));
    let rule = grammar.rule(0).ok_or("no rule")?;
    let second = rule.items.get(1).ok_or("no item")?;
    assert!(rt; rule.left == 0);
    assert!(rt; matches!(second.symbol, Symbol::Nonterminal(2)));
    Ok(())
}
