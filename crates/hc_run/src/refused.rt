ghost use Rattle.std.specs.Prelude.{◌≡◌, ◌++◌, codes, IfOk, OnOk};
ghost use Rattle.std.specs.List.{flat_map};
ghost use Rattle.hc_run.specs.Refused as spec;
ghost use Rattle.hc_run.specs.Refused.{rule_name, node_mark, node_text, detail_text};

use hc_tree::{Detail, Name, Node, Nodes, Refusal, Rule};
use itoa::Buffer;
use std::alloc::{AllocError, Global};

/// The line of a refusal: its rule, its place and what more there is to say.
#[tactic(auto, unfolding(crate::specs::Refused::refusal_line))]
pub fn refusal_line(alloc: Global, refusal: &Refusal) -> Result<Vec<u8>, AllocError>
    ensures { IfOk result (λ line. line.items ≡ spec.refusal_line refusal.now) }
{
    let mut digits = Buffer::new();
    let mut line = Vec::from_slice(alloc, b"refused ")?;
    line.extend_from_slice(name_of(refusal.rule))?;
    line.extend_from_slice(b" at ")?;
    line.extend_from_slice(digits.format(refusal.place.line).as_bytes())?;
    line.extend_from_slice(b":")?;
    line.extend_from_slice(digits.format(refusal.place.column).as_bytes())?;
    add_detail(&mut line, &refusal.detail)?;
    line.extend_from_slice(b"\n")?;
    Ok(line)
}

#[tactic(auto, unfolding(crate::specs::Refused::detail_text))]
fn add_detail(line: &mut Vec<u8>, detail: &Detail) -> Result<(), AllocError>
    ensures { OnOk result (line.new.items ≡ line.old.items ++ detail_text detail.now) }
{
    match detail {
        Detail::Nothing => {}
        Detail::Name(name) => {
            line.extend_from_slice(b": ")?;
            line.extend_from_slice(name.as_bytes())?;
        }
        Detail::Pair(first, second) => {
            let mut digits = Buffer::new();
            line.extend_from_slice(b": ")?;
            line.extend_from_slice(digits.format(*first).as_bytes())?;
            line.extend_from_slice(b" ")?;
            line.extend_from_slice(digits.format(*second).as_bytes())?;
        }
        Detail::Cycle(nodes) => {
            line.extend_from_slice(b":")?;
            add_nodes(line, nodes)?;
        }
    }
    Ok(())
}

fn add_nodes(line: &mut Vec<u8>, nodes: &Nodes) -> Result<(), AllocError>
    ensures { OnOk result (line.new.items ≡ line.old.items ++ flat_map node_text nodes.now) }
{
    for node in nodes.as_slice() {
        add_node(line, node)?;
    }
    Ok(())
}

#[tactic(auto, unfolding(crate::specs::Refused::node_text))]
fn add_node(line: &mut Vec<u8>, node: &(Node, Name)) -> Result<(), AllocError>
    ensures { OnOk result (line.new.items ≡ line.old.items ++ node_text node.now) }
{
    line.extend_from_slice(b" ")?;
    line.extend_from_slice(node.1.as_bytes())?;
    line.extend_from_slice(mark_of(node.0))
}

#[tactic(auto, unfolding(crate::specs::Refused::node_mark))]
fn mark_of(node: Node) -> &'static [u8]
    ensures { result.now ≡ node_mark node }
{
    match node {
        Node::Value(_) => b"",
        Node::Sends(_) => b"!",
        Node::Receives(_) => b"?",
    }
}

#[tactic(auto, unfolding(crate::specs::Refused::rule_name))]
fn name_of(rule: Rule) -> &'static [u8]
    ensures { result.now ≡ rule_name rule }
{
    match rule {
        Rule::S1 => b"S1",
        Rule::S2 => b"S2",
        Rule::S3 => b"S3",
        Rule::S4 => b"S4",
        Rule::S5 => b"S5",
        Rule::S6 => b"S6",
        Rule::S7 => b"S7",
        Rule::S8 => b"S8",
        Rule::S9 => b"S9",
        Rule::S10 => b"S10",
        Rule::S11 => b"S11",
        Rule::S12 => b"S12",
        Rule::S13 => b"S13",
        Rule::S14 => b"S14",
        Rule::S15 => b"S15",
        Rule::S16 => b"S16",
        Rule::S17 => b"S17",
        Rule::S18 => b"S18",
        Rule::S19 => b"S19",
        Rule::S20 => b"S20",
        Rule::S21 => b"S21",
        Rule::S22 => b"S22",
        Rule::S23 => b"S23",
        Rule::S24 => b"S24",
        Rule::L1 => b"L1",
        Rule::L2 => b"L2",
        Rule::L3 => b"L3",
        Rule::L4 => b"L4",
        Rule::L5 => b"L5",
        Rule::L6 => b"L6",
        Rule::L7 => b"L7",
        Rule::L8 => b"L8",
        Rule::L9 => b"L9",
        Rule::NotBuilt => b"NotBuilt",
    }
}
