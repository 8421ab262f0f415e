ghost use Rattle.region_pieces.specs.Laws.{SafePiecesLaw};

/// A law, which does nothing when it is called: a piece is safe where all are to which its turn leads, where all are that
/// cover it, and at the leave where its outputs are among the endings; and a region holds where its first piece is safe.
pub fn safe_pieces()
    ensures { SafePiecesLaw }
{}
