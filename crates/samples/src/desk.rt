// What the samples are tried with.

use chart::read::first_reading;
use faults::fault::Fault;
use formatter::output::print_reindented;
use formatter::refusal::Refusal;
use galley::galley::Galley;
use grammar::block::Block;
use policy::policy::Policy;
use std::process::Abort;
use std::test::Fail;
use text::scan::scan;
use tree::node::Node;
use tree::piece::PieceRecord;

// The program prints just that for the text.
pub(crate) fn prints(
    rt: &(impl Abort + AllocGlobal),
    text: &[u8],
    expected: &[u8],
) -> Result<(), Fail> {
    let printed = match print_reindented(rt.alloc(), text) {
        Ok(script) => script,
        Err(Refusal::Fault(line)) => line.into_bytes(),
        Err(Refusal::Memory(error)) => return Err(error.into()),
    };
    assert!(rt; printed.as_slice() == expected);
    Ok(())
}

// The nodes of the text's first reading have these rules.
pub(crate) fn has_rules(rt: &impl Abort, text: &[u8], rules: &[u8]) -> Result<(), Fail> {
    let mut cells = [0; 1024];
    let mut nodes = [Node::default(); 256];
    let count = rules_of(text, &mut cells, &mut nodes).map_err(|_| Fail::new("no reading"))?;
    assert!(rt; count == rules.len() && count <= nodes.len());
    assert!(rt;
        nodes[..count]
            .iter()
            .zip(rules)
            .all(|(node, rule)| node.rule == *rule)
    );
    Ok(())
}

fn rules_of(text: &[u8], cells: &mut [u64], nodes: &mut [Node]) -> Result<usize, Fault> {
    let tokens = scan(&Block, text)?;
    first_reading(&Block, Block::SCRIPT, &tokens, cells, nodes)
}

// The text, read and laid out by that policy, is written like that.
pub(crate) fn lays<P: Policy>(
    rt: &impl Abort,
    policy: &P,
    text: &[u8],
    expected: &[u8],
) -> Result<(), Fail> {
    let mut out = [0; 2048];
    let length = laid(policy, text, &mut out).map_err(|_| Fail::new("not laid"))?;
    assert!(rt; length <= out.len());
    assert!(rt; &out[..length] == expected);
    Ok(())
}

// The text, read and laid out by that policy, is too deep at that item of that rule.
pub(crate) fn too_deep<P: Policy>(
    rt: &impl Abort,
    policy: &P,
    text: &[u8],
    at: (u8, u8),
) -> Result<(), Fail> {
    let mut out = [0; 2048];
    let Err(Fault::TooDeep { rule, item }) = laid(policy, text, &mut out) else {
        return Err(Fail::new("not too deep"));
    };
    assert!(rt; (rule, item) == at);
    Ok(())
}

fn laid<P: Policy>(policy: &P, text: &[u8], out: &mut [u8]) -> Result<usize, Fault> {
    let mut chart = [0; 4096];
    let mut bytes = [0; 512];
    let mut pieces = [PieceRecord::default(); 64];
    let mut nodes = [Node::default(); 512];
    let mut galley = Galley::new(1, &mut bytes, &mut pieces, &mut nodes);
    galley.read(&Block, Block::SCRIPT, text, &mut chart)?;
    galley.lay_and_write(&Block, policy, out, 0)
}
