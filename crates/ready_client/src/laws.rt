ghost use Rattle.std.specs.Prelude.{◌≡◌, ◌++◌, ℕ, List, Option, Result, [], None};
ghost use Rattle.edge_io.specs.Moving.{Input};
ghost use Rattle.memc_proto.specs.Reader.{HasRead};
ghost use Rattle.front_end.specs.AtOnce.{at_once};
ghost use Rattle.front_end.specs.Progress.{Progress};
ghost use Rattle.front_end.specs.Sequences.{sequence_of};
ghost use Rattle.front_end.specs.declared.at_once.OnlyCall.{OnlyCall};
ghost use Rattle.front_end.specs.declared.end.ConnectionFault.{ConnectionFault};
ghost use Rattle.front_end.specs.declared.end.End.{End};
ghost use Rattle.front_end.specs.declared.overlap.Overlap.{Overlap};
ghost use Rattle.front_end.specs.declared.overlap.Overlap.TheVariants.{Never};
ghost use Rattle.ready_client.specs.Calling.{KeepsCalls};
ghost use Rattle.ready_client.specs.Coming.{ComesAtGateway};
ghost use Rattle.ready_client.specs.Ordered.{AnsweredInOrder, AnsweredInSequences};
ghost use Rattle.ready_client.specs.declared.open_call.OpenCall.{OpenCall};

use front_end::{AtOnce, Caller, Gateway};

/// What `Client::new` makes has come to its start, whoever its gateway is to be: from there each `Client::turn` goes on.
pub fn begins<G: Gateway>()
    ensures { (overlap : Overlap) (told : Option ℕ) (input : Input) (gateway : G) (held : List ℕ) (progress : Progress)
        → HasRead progress.kept [] [] → progress.waiting ≡ [] → progress.count ≡ 0
        → ComesAtGateway G.rules overlap told input input gateway held gateway (held ++ []) progress [] 0 None }
{}

/// Between two of its turns a connection stays as far as it has come, where the gateway keeps its calls and comes later.
pub fn stays<G: Gateway>()
    ensures { (overlap : Overlap) (told : Option ℕ) (input input_now : Input) (first now next : G) (before held : List ℕ)
        (progress : Progress) (calls : List (OpenCall G.Call)) (unwanted : ℕ) (end : Option (Result End ConnectionFault))
        → G.rules.later now next → KeepsCalls G.rules calls now next
        → ComesAtGateway G.rules overlap told input input_now first before now held progress calls unwanted end
        → ComesAtGateway G.rules overlap told input input_now first before next held progress calls unwanted end }
{}

/// Over a caller that others share, where none of its calls overlap, all that was read of a connection at which no request
/// waits is answered by its own calls in their order: each was made from a caller that comes behind the one that the call before
/// it left.
pub fn keeps_order<C: Caller>()
    ensures { (told : Option ℕ) (input input_now : Input) (first now : AtOnce C) (before held : List ℕ) (progress : Progress)
        (calls : List (OpenCall OnlyCall)) (unwanted : ℕ) → progress.waiting ≡ []
        → ComesAtGateway (at_once C.ways C.later) Never told input input_now first before now held progress calls unwanted None
        → AnsweredInOrder C.ways C.later told input input_now progress.kept first.caller now.caller before held }
{}

/// Over any gateway all that was read of a connection at which no request waits is answered by its own calls, of which those of
/// one sequence keep their order: each was begun where the last one of its sequence had ended, or later.
pub fn keeps_sequences<G: Gateway>()
    ensures { (overlap : Overlap) (told : Option ℕ) (input input_now : Input) (first now : G) (before held : List ℕ)
        (progress : Progress) (calls : List (OpenCall G.Call)) (unwanted : ℕ) → progress.waiting ≡ []
        → ComesAtGateway G.rules overlap told input input_now first before now held progress calls unwanted None
        → AnsweredInSequences G.rules.ways G.rules.later (sequence_of overlap) told input input_now progress.kept first now before
        held }
{}
