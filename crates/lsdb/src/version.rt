//! Which of two LSPs is newer: versions, how two of them stand to each other, and their join.
ghost use Rattle.std.specs.Prelude.{◌≡◌};
ghost use Rattle.lsdb.specs.Version.{is_absent, leq, relation, join_of, number_of, sum_of, claimed};

/// The version of an LSP (ISO/IEC 10589, 7.3.16).
#[derive(Clone, Copy, Debug, PartialEq, Eq)]
pub enum Version {
    /// There is none.
    Absent,
    /// Sequence number, at least 1, and checksum of an LSP that has a lifetime left.
    Live { seq: u32, sum: u16 },
    /// Sequence number, at least 1, of an LSP whose lifetime has run out.
    Dead { seq: u32 },
}

/// How one version stands to another.
#[derive(Clone, Copy, Debug, PartialEq, Eq)]
pub enum Relation {
    /// It is below the other.
    Older,
    /// They are one.
    Equal,
    /// It is above the other.
    Newer,
    /// Neither: both are live, with one number and different checksums.
    Confused,
}

impl Version {
    /// The version that a PDU speaks of: number 0 means none, and lifetime 0 a dead one.
    pub fn claimed(seq: u32, lifetime: u16, sum: u16) -> Version
        ensures { result ≡ claimed seq lifetime sum }
    {
        if seq == 0 {
            Version::Absent
        } else if lifetime == 0 {
            Version::Dead { seq }
        } else {
            Version::Live { seq, sum }
        }
    }

    /// The sequence number, 0 where there is no LSP.
    pub fn number(self) -> u32
        ensures { result ≡ number_of self }
    {
        match self {
            Version::Absent => 0,
            Version::Live { seq, sum: _ } => seq,
            Version::Dead { seq } => seq,
        }
    }

    /// The checksum of an LSP with a lifetime left; that of a dead one, and of none, is 0.
    pub fn sum(self) -> u16
        ensures { result ≡ sum_of self }
    {
        match self {
            Version::Live { seq: _, sum } => sum,
            Version::Absent | Version::Dead { seq: _ } => 0,
        }
    }

    /// Whether it is the version of nothing.
    pub fn is_absent(self) -> bool
        ensures { result ≡ is_absent self }
    {
        match self {
            Version::Absent => true,
            Version::Live { seq: _, sum: _ } | Version::Dead { seq: _ } => false,
        }
    }

    /// Whether this version is at most another: absent is least, a greater number is above a lower one, and at one
    /// number every live version is below the dead one.
    #[tactic(auto, unfolding(crate::specs::Version::leq))]
    pub fn is_at_most(self, other: Version) -> bool
        ensures { result ≡ leq self other }
    {
        match (self, other) {
            (Version::Absent, _) => true,
            (_, Version::Absent) => false,
            (Version::Live { seq, sum }, Version::Live { seq: n, sum: s }) => {
                seq < n || (seq == n && sum == s)
            }
            (Version::Live { seq, sum: _ }, Version::Dead { seq: n }) => seq <= n,
            (Version::Dead { seq }, Version::Live { seq: n, sum: _ }) => seq < n,
            (Version::Dead { seq }, Version::Dead { seq: n }) => seq <= n,
        }
    }
}

/// How a version stands to the one that is held.
#[tactic(auto, unfolding(crate::specs::Version::relation))]
pub fn compare(a: Version, h: Version) -> Relation
    ensures { result ≡ relation a h }
{
    match (a.is_at_most(h), h.is_at_most(a)) {
        (true, true) => Relation::Equal,
        (true, false) => Relation::Older,
        (false, true) => Relation::Newer,
        (false, false) => Relation::Confused,
    }
}

/// The least version that both are at most: the newer one, and of confused versions the dead one of their number.
#[tactic(auto, unfolding(crate::specs::Version::join_of))]
pub fn join(a: Version, h: Version) -> Version
    ensures { result ≡ join_of a h }
{
    if a.is_at_most(h) {
        h
    } else if h.is_at_most(a) {
        a
    } else {
        Version::Dead { seq: a.number() }
    }
}
