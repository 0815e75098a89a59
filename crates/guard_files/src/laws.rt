// Laws about the definitions alone, each the contract of a function that does nothing.
ghost use Rattle.guard_files.specs.ListFile.{ReadsBack, IsOneSpelling};
ghost use Rattle.guard_files.specs.Recovery.{RecoversAlike};

/// Two maps that agree at the protected names of one of them have the same recovery.
pub fn agreement_keeps_recovery()
    ensures alike { RecoversAlike }
{}

/// A list file is read as the names that it was written of, and has one spelling.
pub fn list_reads_back()
    ensures back { ReadsBack }
    ensures spelling { IsOneSpelling }
{}
