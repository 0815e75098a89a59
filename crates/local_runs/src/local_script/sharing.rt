// The open shares of a script.
ghost use Rattle.std.specs.Prelude.{◌≡◌, ◌++◌, OnOk, OnErr};
ghost use Rattle.line_script.specs.declared.steps.Step.TheVariants as step;
ghost use Rattle.script_replies.specs.Folded.{AreFolded};
ghost use Rattle.script_replies.specs.Reply.{reply, shares_after};

use crate::local_script::LocalScript;
use app_registry::Ident;
use desk_state::Desk;
use script_replies::{print_share_refusal, print_shared};
use std::alloc::AllocError;

impl LocalScript {
    // Opens a share once more, and adds how often it is open to the answers that wait, or why it is not opened.
    pub(super) fn share(
        &mut self,
        desk: &Desk,
        owner: &Ident,
        target: &Ident,
        name: &Ident,
    ) -> Result<(), AllocError>
        requires folded { AreFolded self.old.rules desk.now self.old.shares }
        ensures answer { OnOk result (self.new.answers ≡
            self.old.answers ++ reply desk.now self.old.shares (step.Share owner.now target.now name.now)) }
        ensures shares { OnOk result (self.new.shares ≡
            shares_after desk.now self.old.shares (step.Share owner.now target.now name.now)) }
        ensures err { OnErr result (self.new.answers ≡ self.old.answers) }
        ensures reader { self.new.reader ≡ self.old.reader }
        ensures folded { AreFolded self.new.rules desk.now self.new.shares }
    {
        let shares = match self.shares.open(desk.registry(), owner, target, name) {
            Ok(shares) => shares,
            Err(refusal) => {
                print_share_refusal(&refusal, &mut self.answers)?;
                self.notes.keep_share_refusal(refusal);
                return Ok(());
            }
        };
        print_shared(shares.count(owner, target, name), &mut self.answers)?;
        self.shares = shares;
        self.rules.forget_given();
        Ok(())
    }

    // The same once less.
    pub(super) fn unshare(
        &mut self,
        desk: &Desk,
        owner: &Ident,
        target: &Ident,
        name: &Ident,
    ) -> Result<(), AllocError>
        requires folded { AreFolded self.old.rules desk.now self.old.shares }
        ensures answer { OnOk result (self.new.answers ≡
            self.old.answers ++ reply desk.now self.old.shares (step.Unshare owner.now target.now name.now)) }
        ensures shares { OnOk result (self.new.shares ≡
            shares_after desk.now self.old.shares (step.Unshare owner.now target.now name.now)) }
        ensures err { OnErr result (self.new.answers ≡ self.old.answers) }
        ensures reader { self.new.reader ≡ self.old.reader }
        ensures folded { AreFolded self.new.rules desk.now self.new.shares }
    {
        let shares = match self.shares.close(owner, target, name) {
            Ok(shares) => shares,
            Err(refusal) => {
                print_share_refusal(&refusal, &mut self.answers)?;
                self.notes.keep_share_refusal(refusal);
                return Ok(());
            }
        };
        print_shared(shares.count(owner, target, name), &mut self.answers)?;
        self.shares = shares;
        self.rules.forget_given();
        Ok(())
    }
}
