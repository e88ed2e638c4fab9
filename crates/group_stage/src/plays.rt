use crate::view::{Plan, View};
use atomic_table::{Join, Play, Split, TableRule};
use group_calls::Event;
use group_node::Node;
use std::marker::{Brand, PhantomData};

// The rule of a stage.
pub struct Rule;

impl TableRule<Option<Node>, View, Plan> for Rule {
    ghost use Rattle.group_stage.specs.Kept.{KeepsPlan};
    ghost use Rattle.group_stage.specs.Views.{blank};

    ghost holds = { KeepsPlan };

    ghost first = { λ plan. blank plan.shape plan.callers 1 0 };
}

/// The event of a call.
pub trait Calls {
    ghost use Rattle.group_calls.specs.declared.event.Event.{Event};

    ghost event: { Event };
}

impl Calls for Brand {
    ghost use Rattle.group_calls.specs.declared.event.Event.TheVariants.{Flush};
    ghost use Rattle.group_types.specs.declared.process.ProcessId.TheVariants.{DataNode};

    ghost event = { Flush (DataNode 0) };
}

// A call takes its first word.
pub struct Begin<J: Calls>(PhantomData<J>);

impl<J: Calls> Play<Option<Node>, View> for Begin<J> {
    ghost use Rattle.group_stage.specs.Steps.{TakesFirstWord};

    ghost then = { TakesFirstWord J.event };
}

// A call takes a further word.
pub struct Take;

impl Play<Option<Node>, View> for Take {
    ghost use Rattle.group_stage.specs.Steps.{TakesNextWord};

    ghost then = { TakesNextWord };
}

// A call becomes an event.
pub struct Commit;

impl Play<Option<Node>, View> for Commit {
    ghost use Rattle.group_stage.specs.Steps.{Commits};

    ghost then = { Commits };
}

// A node is given back.
pub struct Release;

impl Play<Option<Node>, View> for Release {
    ghost use Rattle.group_stage.specs.Steps.{Releases};

    ghost then = { Releases };
}

// A new seat draws its caller number.
pub struct Draw;

impl Play<Option<Node>, View> for Draw {
    ghost use Rattle.group_stage.specs.Steps.{Draws};

    ghost then = { Draws };
}

// A new seat has all parts but one.
pub struct Part;

impl Split<View> for Part {
    ghost use Rattle.group_stage.specs.Views.{kept_part, new_part};

    ghost left = { kept_part };

    ghost right = { new_part };
}

// Two seats as one.
pub struct Both;

impl Join<View> for Both {
    ghost use Rattle.group_stage.specs.Views.{empty_view, joined_views};

    ghost both = { joined_views };

    ghost spent = { empty_view };
}
