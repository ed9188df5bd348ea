//! Registers that are dead stay dead under the operations.

ghost use Rattle.law_patch.specs.Liveness.{FallKeepsDead, DetourKeepsDead, InvertKeepsDead, ShortenKeepsDead, HastenKeepsDead, DropKeepsDead, DropMovesDead, UnreachedKeepsDead, TailKeepsDead, TailMovesDead, MergeKeepsDead, BodyKeepsDead, SplitKeepsDead, SplitMovesDead, CanonicalKeepsDead, OutlineKeepsDead, CallKeepsDead, CallMovesDead, MatchKeepsDead, MatchMovesDead, InlineKeepsDead, InlineMovesDead, RecallKeepsDead, UncalledGoesKeepsDead, InsertKeepsDead, ExchangeKeepsDead, ReorderKeepsDead};

/// Registers that are dead at a place are dead there still, for each of these operations and each place that its statement
/// names: all but those where the operation changes what stands behind.
pub fn operations_keep_dead()
    ensures fall { FallKeepsDead }
    ensures detour { DetourKeepsDead }
    ensures invert { InvertKeepsDead }
    ensures shorten { ShortenKeepsDead }
    ensures hasten { HastenKeepsDead }
    ensures drop { DropKeepsDead }
    ensures drop_moves { DropMovesDead }
    ensures restrict { UnreachedKeepsDead }
    ensures tail { TailKeepsDead }
    ensures tail_moves { TailMovesDead }
    ensures merge { MergeKeepsDead }
    ensures body { BodyKeepsDead }
    ensures split { SplitKeepsDead }
    ensures split_moves { SplitMovesDead }
    ensures canonical { CanonicalKeepsDead }
    ensures outline { OutlineKeepsDead }
    ensures call { CallKeepsDead }
    ensures call_moves { CallMovesDead }
    ensures matching { MatchKeepsDead }
    ensures match_moves { MatchMovesDead }
    ensures inline { InlineKeepsDead }
    ensures inline_moves { InlineMovesDead }
    ensures recall { RecallKeepsDead }
    ensures uncalled_goes { UncalledGoesKeepsDead }
    ensures insert { InsertKeepsDead }
    ensures exchange { ExchangeKeepsDead }
    ensures reorder { ReorderKeepsDead }
{}
