ghost use Rattle.std.specs.Prelude.{◌≡◌, ◌<◌, map, None, Some, IfOk, MatchOption, MatchResult};
ghost use Rattle.group_cluster.specs.Plan.{IsPlan, Plan};
ghost use Rattle.group_layout.specs.declared.event.ClusterEvent.TheVariants.{FailNode};
ghost use Rattle.scenario_text.specs.Reads.{IsReadAs, IsReadBy};
ghost use Rattle.cluster_run.specs.Meaning.{cut_at_space, failure_line, group_of_word, groups_line, in_group, plan_of, plan_within};
ghost use Rattle.cluster_play.specs.Reads.{IsPlanRead};

use cluster_run::ClusterFault;
use group_cluster::Layout;
use memchr::memchr;
use scenario_text::LineFault;
use scenario_text::read_word::{read_keep, read_number, read_u32};
use std::marker::Model;

/// The group that a line begins with, and its line: `g<j> ` and what stands behind it.
pub(crate) fn read_group(groups: u32, line: &[u8]) -> Result<(u32, &[u8]), LineFault>
    ensures named { IsReadBy (λ named. (named.0, named.1.now)) result (in_group groups line.now) }
    ensures there { IfOk result (λ named. named.0 < groups) }
{
    match cut_at_space(line) {
        Some((word, rest)) => Ok((read_group_word(groups, word)?, rest)),
        None => Err(LineFault::BadLine),
    }
}

fn cut_at_space(line: &[u8]) -> Option<(&[u8], &[u8])>
    ensures { MatchOption result (cut_at_space line.now ≡ None) (λ parts. cut_at_space line.now
        ≡ Some (parts.0.now, parts.1.now)) }
{
    match memchr(b' ', line) {
        Some(end) => Some((&line[..end], &line[end + 1..])),
        None => None,
    }
}

fn read_group_word(groups: u32, word: &[u8]) -> Result<u32, LineFault>
    ensures group { IsReadAs result (group_of_word groups word.now) }
    ensures there { IfOk result (λ group. group < groups) }
{
    match word {
        [b'g', digits @ ..] => Ok(read_number(digits, u64::from(groups))? as u32),
        _ => Err(LineFault::BadLine),
    }
}

/// The node that fails, of so many nodes, and how many messages links keep: the words `fail_node <node> <keep>`.
pub(crate) fn read_failure(nodes: u32, words: &[&[u8]]) -> Result<(u32, u32), LineFault>
    ensures failure { IsReadBy (λ failure. FailNode failure.0 failure.1) result
        (failure_line nodes (map (λ word. word.now) words.now)) }
    ensures there { IfOk result (λ failure. failure.0 < nodes) }
{
    match words {
        [name, node, keep] if *name == b"fail_node".as_slice() => {
            let node = read_number(node, u64::from(nodes))? as u32;
            Ok((node, read_keep(keep)?))
        }
        _ => Err(LineFault::BadLine),
    }
}

/// The numbers of groups on nodes, as a line names them.
#[derive(Drop)]
struct Numbers {
    groups: u32,
    nodes: u32,
    k: u32,
    m: u32,
    blocks: u32,
    block: u32,
}

impl Model for Numbers {
    ghost use Rattle.group_cluster.specs.Plan.{Plan};

    ghost Value = { Plan };

    ghost view = { λ n. record { groups = n.groups; nodes = n.nodes; shape = record { k = n.k; m = n.m; blocks = n.blocks; block = n.block } } };
}

/// The words `groups <g> <n> <k> <m> <blocks> <block>`.
pub(crate) fn read_groups(words: &[&[u8]]) -> Result<Layout, ClusterFault>
    ensures { IsPlanRead result (groups_line (map (λ word. word.now) words.now)) }
{
    match words {
        [name, numbers @ ..] if *name == b"groups".as_slice() => layout_of(read_numbers(numbers)?),
        _ => Err(ClusterFault::BadLine),
    }
}

fn read_numbers(words: &[&[u8]]) -> Result<Numbers, LineFault>
    ensures { IsReadAs result (plan_of (map (λ word. word.now) words.now)) }
{
    let [groups, nodes, k, m, blocks, block] = words else {
        return Err(LineFault::BadLine);
    };
    let (groups, nodes) = (read_u32(groups)?, read_u32(nodes)?);
    let (k, m) = (read_u32(k)?, read_u32(m)?);
    let (blocks, block) = (read_u32(blocks)?, read_u32(block)?);
    Ok(Numbers {
        groups,
        nodes,
        k,
        m,
        blocks,
        block,
    })
}

fn layout_of(n: Numbers) -> Result<Layout, ClusterFault>
    ensures { IsPlanRead result (plan_within n) }
{
    match Layout::new(n.groups, n.nodes, n.k, n.m, n.blocks, n.block) {
        Ok(layout) => Ok(layout),
        Err(bad) => Err(ClusterFault::BadLayout(bad.field)),
    }
}
