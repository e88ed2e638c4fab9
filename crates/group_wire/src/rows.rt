ghost use Rattle.group_wire.specs.Rows.{AFailureMayCome};
ghost use Rattle.group_wire.specs.RowsOfCalls.{AHeadFails, AParityFails, NobodyFails, TracedAtTheNextHead, TwoParitiesNobodyFails};
ghost use Rattle.group_wire.specs.RowsOfEnds.{KeptOfAFailedGateway, ProgramsEnd, TwoFailOneByOne};
ghost use Rattle.group_wire.specs.RowsOfFates.{ALostAsk, GoneAndAskedAgain, ShownByAFailedOne};
ghost use Rattle.group_wire.specs.RowsOfFailures.{BothHeadsFail, HeadsAreCondemned, NobodyIsDead, TwoFailAtOnce};
ghost use Rattle.group_wire.specs.RowsOfLosses.{ABlockIsRebuilt, APendingUpdate};
ghost use Rattle.group_wire.specs.RowsOfGateways.{AReadIsAskedAgain, Ghosts, KeptBehindACut, ThreeGateways};
ghost use Rattle.group_wire.specs.RowsOfSigns.{AnsweredByALaterPong, LetGoOfUnknownFate, LetGoWhileAsked};
ghost use Rattle.group_wire.specs.RowsThatBreak.{AnsweredBehindTheCut, GivenUpAtTheCut, MoreThanM, OnePongTooFew, PermittedTooEarly, ReadBehindTheCut};

/// Nobody fails: calls at each gateway, each shown after its pongs.
pub fn row_nobody_fails()
    ensures { NobodyFails }
{}

/// The same with two parity processes, whose pongs are both waited for.
pub fn row_two_parities_nobody_fails()
    ensures { TwoParitiesNobodyFails }
{}

/// A data process fails while it has updates under way; the parity process heads its partition.
pub fn row_a_head_fails()
    ensures { AHeadFails }
{}

/// A parity process fails, and an update that waited for it is handed out.
pub fn row_a_parity_fails()
    ensures { AParityFails }
{}

/// A change of unknown fate is traced at the next head, and its reply shown.
pub fn row_traced_at_the_next_head()
    ensures { TracedAtTheNextHead }
{}

/// A change that the next head has nothing of is asked again under the next position.
pub fn row_gone_and_asked_again()
    ensures { GoneAndAskedAgain }
{}

/// An ask that the dead head never treated is given up, and stands behind the failure as lost.
pub fn row_a_lost_ask()
    ensures { ALostAsk }
{}

/// A failed gateway shows what it was told before it failed.
pub fn row_shown_by_a_failed_one()
    ensures { ShownByAFailedOne }
{}

/// Two fail by one permitted set.
pub fn row_two_fail_at_once()
    ensures { TwoFailAtOnce }
{}

/// Both data processes of a group with two parity processes fail.
pub fn row_both_heads_fail()
    ensures { BothHeadsFail }
{}

/// Members are condemned that live, by words that differ from member to member.
pub fn row_nobody_is_dead()
    ensures { NobodyIsDead }
{}

/// Heads that live are condemned, in a group with more data than parity processes.
pub fn row_heads_are_condemned()
    ensures { HeadsAreCondemned }
{}

/// The next head rebuilds a block before it answers.
pub fn row_a_block_is_rebuilt()
    ensures { ABlockIsRebuilt }
{}

/// A call waits for an update that isn't finished, and is asked again.
pub fn row_a_pending_update()
    ensures { APendingUpdate }
{}

/// A read is given up, and asked again at the next head.
pub fn row_a_read_is_asked_again()
    ensures { AReadIsAskedAgain }
{}

/// A request that a member had read before its cut is treated behind it.
pub fn row_kept_behind_a_cut()
    ensures { KeptBehindACut }
{}

/// Calls of every gateway of a group with two parity processes and one failure.
pub fn row_three_gateways()
    ensures { ThreeGateways }
{}

/// A failed member that lives goes on, and shows nothing of it.
pub fn row_ghosts()
    ensures { Ghosts }
{}

/// Two fail, one after the other.
pub fn row_two_fail_one_by_one()
    ensures { TwoFailOneByOne }
{}

/// A program ends, and its member is failed later.
pub fn row_programs_end()
    ensures { ProgramsEnd }
{}

/// A request is treated whose gateway has failed.
pub fn row_kept_of_a_failed_gateway()
    ensures { KeptOfAFailedGateway }
{}

/// A member permits itself a set before the others have said it: it receives what the machine has not.
pub fn row_permitted_too_early()
    ensures { PermittedTooEarly }
{}

/// A member reads on behind its cut: the machine has the notice alone.
pub fn row_read_behind_the_cut()
    ensures { ReadBehindTheCut }
{}

/// An answer is read behind the cut: it is a ghost's, and is shown.
pub fn row_answered_behind_the_cut()
    ensures { AnsweredBehindTheCut }
{}

/// An answer is shown by one pong too few: it is a ghost's, and no entry of the log.
pub fn row_one_pong_too_few()
    ensures { OnePongTooFew }
{}

/// An ask is given up at the cut, and not at the notice: it isn't lost.
pub fn row_given_up_at_the_cut()
    ensures { GivenUpAtTheCut }
{}

/// A word for more than m is taken: the machine is down.
pub fn row_more_than_m()
    ensures { MoreThanM }
{}

/// A run in which a data process is cut and fails, and its death is taken.
pub fn row_a_failure_may_come()
    ensures { AFailureMayCome }
{}

/// The member that was sent a ping hangs: another answers the next one, and so that one too.
pub fn row_answered_by_a_later_pong()
    ensures { AnsweredByALaterPong }
{}

/// A change of unknown fate is let go, and its caller's next call is shown.
pub fn row_let_go_of_unknown_fate()
    ensures { LetGoOfUnknownFate }
{}

/// A call is let go that is still asked: the machine knows the next one by another position.
pub fn row_let_go_while_asked()
    ensures { LetGoWhileAsked }
{}
