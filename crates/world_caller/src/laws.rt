ghost use Rattle.world_caller.specs.Laws.{AsksLeadOnAlways, CollectsLeadOnAlways, DueDeliversAlways, FewAlways};

/// Where nothing is left to deliver, a call that is asked at the right process is answered with its end, with a ticket
/// that can be collected, or that a block has to be rebuilt.
pub fn asks_lead_on()
    ensures { AsksLeadOnAlways }
{}

/// Where nothing is left to deliver, a ticket is collected with the reply.
pub fn collects_lead_on()
    ensures { CollectsLeadOnAlways }
{}

/// The delivery that comes first may come, leaves tickets to be collected, and lowers the weight of what is on its way.
pub fn due_delivers()
    ensures { DueDeliversAlways }
{}

/// A call is asked once for each block at most, and once more.
pub fn asks_are_few()
    ensures { FewAlways }
{}
