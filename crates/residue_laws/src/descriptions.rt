ghost use Rattle.std.specs.Prelude.{List};
ghost use Rattle.book_base.specs.SeqSpec.{SeqSpec};
ghost use Rattle.streams.specs.Stream.{StreamEvent};
ghost use Rattle.residue_laws.specs.Residue.{Configuration};
ghost use Rattle.residue_laws.specs.Simulation.{AreFaithful};

/// A type of descriptions, of which some are retained after each stream in place of its residue.
pub trait Descriptions {
    /// The sequential object.
    ghost spec: { SeqSpec };

    /// Which descriptions are retained after a stream.
    ghost retained: { List StreamEvent → Self → Type 0 };

    /// To which descriptions one steps by the next event of a stream.
    ghost steps: { List StreamEvent → StreamEvent → Self → Self → Type 0 };

    /// Which configurations a description means.
    ghost means: { Self → Configuration → Type 0 };

    /// For which configurations a description serves.
    ghost serves: { Self → Configuration → Type 0 };

    /// The descriptions are faithful to the object.
    ghost faithful: { AreFaithful spec retained steps means serves };
}
