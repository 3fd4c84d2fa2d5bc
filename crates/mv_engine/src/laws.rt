//! Laws over the definitions alone: of the pieces of an input, and of its lines.
#![tactic(auto, using(crate::proofs::LineLawsLemmas::laws))]

ghost use Rattle.mv_engine.specs.LineLaws.{PiecesRejoin, PiecesAreUnended, PiecesReadBack, PiecesCompose, LinesCompose};

/// The pieces of an input that end by a line feed, each with it, and behind them what stands behind the last one, are the
/// input: nothing of it is lost or comes twice.
pub fn pieces_rejoin()
    ensures { PiecesRejoin }
{}

/// No piece of an input has a line feed in it.
pub fn pieces_are_unended()
    ensures { PiecesAreUnended }
{}

/// Texts without line feeds that are written with one behind each are read as these pieces; so is one more behind them
/// that no line feed ends, if it is not empty.
pub fn pieces_read_back()
    ensures { PiecesReadBack }
{}

/// Behind a line feed the pieces begin anew, whatever stands before it.
pub fn pieces_compose()
    ensures { PiecesCompose }
{}

/// The lines of two parts of an input with a line feed between them are those of the one, and then those of the other.
pub fn lines_compose()
    ensures { LinesCompose }
{}
