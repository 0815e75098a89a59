//! A command applied to a state.

ghost use Rattle.std.specs.Prelude.{◌≡◌, None, IfOk, IfErr, OnOk};
ghost use Rattle.desk_state.specs.Next.{next, erased_by};
ghost use Rattle.desk_state.specs.Rules.{Refuses, fault};
ghost use Rattle.desk_state.specs.parts.Stepping.{Answers, IsAllowed};

use crate::{Applied, Command, Desk, Refusal};

impl Desk {
    /// What the command gives: the next state, with the next commit number, also where nothing else changes. Refuses,
    /// as `Refusal` says, by the first rule that the command breaks, and this state stays as it is. A command costs
    /// what it changes: the lists of the buckets that it is about, and for users and installs those of `MAIN` and
    /// `MANIFESTS` and a copy of the registry.
    pub fn apply(&self, command: &Command) -> Result<Applied, Refusal>
        ensures next { IfOk result (λ applied. applied.desk ≡ next self.now command.now) }
        ensures erased { IfOk result (λ applied. applied.erased ≡ erased_by self.now command.now) }
        ensures accepted { OnOk result (fault self.now command.now ≡ None) }
        ensures refused { IfErr result (Refuses self.now command.now) }
    {
        if let Err(refusal) = self.check_layout(command) {
            return Err(refusal);
        }
        match self.allowed(command) {
            Ok(applied) => Ok(applied),
            Err(refusal) => Err(refusal),
        }
    }

    // The same for a command that the layout has nothing against.
    fn allowed(&self, command: &Command) -> Result<Applied, Refusal>
        requires { IsAllowed self.now command.now }
        ensures { Answers self.now command.now result }
    {
        match command {
            Command::SetBucket { bucket, fallback } => self.set_bucket(bucket, fallback),
            Command::RemoveBucket { bucket } => self.remove_bucket(bucket),
            Command::SetPolicies { changes } => self.set_policies(changes),
            Command::Erase { bucket, filter } => self.erase(bucket, filter),
            Command::Layout => self.lay_out(),
            Command::SetTemplate { template } => self.set_template(template),
            Command::UserSet { uid, kind } => self.user_set(*uid, *kind),
            Command::UserRemove { uid } => self.user_remove(*uid),
            Command::Install { install } => self.install(install),
            Command::Uninstall { app, scope } => self.uninstall(app, *scope),
            Command::Convert { package, hybrid } => self.convert(package, *hybrid),
        }
    }
}
