ghost use Rattle.std.specs.Prelude.{◌≡◌};

// A scale at which the tables are kept.
#[derive(Clone, Copy)]
pub enum Scale {
    // 16,384: the tables that kernels work with
    Standard,
    // 2^30: the tables that bins are compared with
    Fine,
}

impl Scale {
    ghost use Rattle.tables.specs.Entries.{scale_of};

    // C(0), which no entry passes in size.
    pub fn value(self) -> u64
        ensures { result ≡ scale_of self }
    {
        match self {
            Scale::Standard => 16384,
            Scale::Fine => 1 << 30,
        }
    }
}
