ghost use Rattle.join.specs.Laws.{JoinsAssociative, JoinedStreamsAssociative, AppliedInTurn};
ghost use Rattle.join.specs.Laws.{RangesOverlaid, JoinMeans, RangesAreRuns, LengthByRanges};
ghost use Rattle.join.specs.Laws.{ExpressibleReadBack, SoundExpressible, CanonicalMeans};

/// The laws of joins. Joins are associative, as differences and as bytes of streams; applying a
/// join is applying its parts in turn; the ranges of a join are the overlay of the ranges; a joined
/// stream means the join of what the two streams mean.
#[tactic(auto, using(crate::proofs::JoinedImages::applied_in_turn, crate::proofs::Associativity::joined_bracketing, crate::proofs::Associativity::streams_bracketing, crate::proofs::Associativity::ranges_overlaid, crate::proofs::Associativity::join_means))]
pub fn laws_of_joins()
    ensures bracketing { JoinsAssociative }
    ensures streams { JoinedStreamsAssociative }
    ensures in_turn { AppliedInTurn }
    ensures ranges { RangesOverlaid }
    ensures means { JoinMeans }
{}

/// The laws of canonical streams. The ranges say what each position is; names and ranges give the
/// length; a canonical stream reads back as its difference and is its own canonical stream; and
/// what an accepted stream means has one, which means the same.
pub fn laws_of_canonical_streams()
    ensures ranges_are_runs { RangesAreRuns }
    ensures length_by_ranges { LengthByRanges }
    ensures read_back { ExpressibleReadBack }
    ensures expressible { SoundExpressible }
    ensures means { CanonicalMeans }
{}
