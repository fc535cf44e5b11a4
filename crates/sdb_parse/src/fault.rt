// Why reading stopped.
ghost use Rattle.std.specs.Prelude.{◌≡◌};
ghost use Rattle.sdb_parse.specs.declared.fault.Fault.TheVariants.{OutOfMemory as out_of_memory};

// Why nothing was read.
#[derive(Clone, Copy, Debug, PartialEq, Eq)]
pub enum Fault {
    Syntax,
    OutOfMemory,
}

impl From<sdb_base::OutOfMemory> for Fault {
    ghost from_gives = { λ _ e. e ≡ out_of_memory };

    fn from(_error: sdb_base::OutOfMemory) -> Fault {
        Fault::OutOfMemory
    }
}
