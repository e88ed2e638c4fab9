ghost use Rattle.std.specs.Prelude.{◌≡◌, ◌≤◌, ◌<◌, ◌+◌, IfSome};
ghost use Rattle.group_layout.specs.Layout.{group_of, node_of, process_on};

use group_types::Key;

/// The node of a process of a group, by its number in the order of processes: groups begin at nodes that follow one
/// another.
pub fn node_of(nodes: u32, group: u32, process: u32) -> u32
    requires nodes { 1 ≤ nodes }
    requires group { group ≤ 16 }
    requires process { process ≤ 64 }
    ensures node { result ≡ node_of nodes group process }
    ensures within { result < nodes }
{
    (group + process) % nodes
}

/// The group of a key.
pub fn group_of(key: &Key, k: u32, groups: u32) -> u32
    requires k { 1 ≤ k }
    requires groups { 1 ≤ groups }
    ensures group { result ≡ group_of key.now k groups }
    ensures within { result < groups }
{
    key.fnv1a() / k % groups
}

/// The process of a group that stands on a node, if one does, by its number.
pub fn process_on(nodes: u32, processes: u32, node: u32, group: u32) -> Option<u32>
    requires nodes { 1 ≤ nodes }
    requires group { group ≤ 16 }
    requires processes { processes ≤ 64 }
    ensures process { result ≡ process_on nodes processes node group }
    ensures within { IfSome result (λ q. q < processes) }
{
    'processes: for q in 0..processes {
        if node_of(nodes, group, q) == node {
            return Some(q);
        }
    }
    None
}
