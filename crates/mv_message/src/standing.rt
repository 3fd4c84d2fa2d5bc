//! What a pack may be used for: one of eight standings.

ghost use Rattle.std.specs.Prelude.{◌≡◌};

/// What a pack may be used for. All but the first say that it was decommissioned, and why.
#[derive(Clone, Copy, PartialEq, Eq)]
pub enum Standing {
    /// `active`: no change took it out of supply. A recall, a withdrawal or its last day may still keep it from being supplied.
    Active,
    /// `supplied`: it was supplied to the public.
    Supplied,
    /// `exported`: it left the Union.
    Exported,
    /// `destruction`: it is to be destroyed.
    Destruction,
    /// `sample`: an authority took it as a sample.
    Sample,
    /// `free_sample`: it is given away as a sample.
    FreeSample,
    /// `stolen`: it was stolen.
    Stolen,
    /// `repackaged`: its packaging was replaced.
    Repackaged,
}

impl Standing {
    ghost use Rattle.mv_message.specs.Standings.{standing_name};

    /// The name of the standing, as it stands in a message.
    pub fn name(self) -> &'static str
        ensures { result.now ≡ standing_name self }
    {
        match self {
            Standing::Active => "active",
            Standing::Supplied => "supplied",
            Standing::Exported => "exported",
            Standing::Destruction => "destruction",
            Standing::Sample => "sample",
            Standing::FreeSample => "free_sample",
            Standing::Stolen => "stolen",
            Standing::Repackaged => "repackaged",
        }
    }
}
