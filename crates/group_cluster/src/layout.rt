ghost use Rattle.std.specs.Prelude.{◌≡◌, MatchResult};
ghost use Rattle.group_types.specs.Dimensions.{Dimensions};
ghost use Rattle.group_cluster.specs.Plan.{Plan, IsPlan, IsFirstBad};

use group_types::{Field, Shape};
use std::marker::Model;

/// A field of groups on nodes, as a refusal names it.
#[derive(Clone, Copy, Debug, PartialEq, Eq)]
pub enum LayoutField {
    Groups,
    Nodes,
    Shape(Field),
}

/// The first field that is out of range: groups, nodes, and then those of the shape in its order, the number of
/// blocks also where all spaces together have more than 2^31 bytes.
#[derive(Clone, Copy, Debug, PartialEq, Eq)]
pub struct BadLayout {
    pub field: LayoutField,
}

/// Groups (1 to 16) of one shape on nodes: as many as a group has processes, up to 64. All spaces have at most 2^31
/// bytes together.
#[derive(Clone, Copy, Debug, PartialEq, Eq)]
pub struct Layout {
    groups: u32,
    nodes: u32,
    shape: Shape,
}

impl Model for Layout {
    ghost use Rattle.group_cluster.specs.Plan.{Plan, IsPlan};

    ghost Value = { Plan };

    ghost view = { λ l. record { groups = l.groups; nodes = l.nodes; shape = l.shape } };

    ghost invariant = { λ l. IsPlan (record { groups = l.groups; nodes = l.nodes; shape = l.shape }) };

    ghost inverse = { λ p. record { groups = p.groups; nodes = p.nodes; shape = p.shape } };
}

impl Layout {
    /// So many groups (1 to 16) of one shape on so many nodes (k + m to 64).
    ///
    /// `BadLayout`: the first number that is out of range, in the order groups, nodes, k, m, block, blocks.
    pub fn new(
        groups: u32,
        nodes: u32,
        k: u32,
        m: u32,
        blocks: u32,
        block: u32,
    ) -> Result<Layout, BadLayout>
        ensures { let shape : Dimensions = record { k = k; m = m; blocks = blocks; block = block } in
            let asked : Plan = record { groups = groups; nodes = nodes; shape = shape } in
            MatchResult result (λ l. (l ≡ asked) × IsPlan asked) (λ bad. IsFirstBad asked bad.field) }
    {
        if groups < 1 || 16 < groups {
            return Err(BadLayout {
                field: LayoutField::Groups,
            });
        }
        let processes = u64::from(k) + u64::from(m);
        if u64::from(nodes) < processes || 64 < nodes {
            return Err(BadLayout {
                field: LayoutField::Nodes,
            });
        }
        let shape = match Shape::new(k, m, blocks, block) {
            Ok(shape) => shape,
            Err(bad) => {
                return Err(BadLayout {
                    field: LayoutField::Shape(bad.field),
                });
            }
        };
        if 2_147_483_648 < u64::from(groups) * processes * u64::from(shape.space()) {
            return Err(BadLayout {
                field: LayoutField::Shape(Field::Blocks),
            });
        }
        Ok(Layout {
            groups,
            nodes,
            shape,
        })
    }

    /// The number of groups.
    pub fn groups(self) -> u32
        ensures value { result ≡ self.groups }
        ensures in_range { IsPlan self }
    {
        self.groups
    }

    /// The number of nodes.
    pub fn nodes(self) -> u32
        ensures value { result ≡ self.nodes }
        ensures in_range { IsPlan self }
    {
        self.nodes
    }

    /// The shape of each group.
    pub fn shape(self) -> Shape
        ensures value { result ≡ self.shape }
        ensures in_range { IsPlan self }
    {
        self.shape
    }
}
