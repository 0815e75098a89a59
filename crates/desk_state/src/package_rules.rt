//! The Smack rules of a state.

ghost use Rattle.std.specs.Prelude.{◌≡◌, ◌++◌, IsTrue, IfOk, OnOk};
ghost use Rattle.std.specs.List as list;
ghost use Rattle.smack_rules.specs.Grants.{GrantsAs};
ghost use Rattle.app_registry.specs.Registry.{has_package};
ghost use Rattle.desk_state.specs.DeskState.{package_rules, smack_rules};
ghost use Rattle.desk_state.specs.parts.Packages.{later_packages};

use crate::Desk;
use app_registry::{Ident, Install};
use smack_rules::{Rule, RuleTable};
use std::alloc::AllocError;

impl Desk {
    /// What the Smack rules of the state grant: those of all packages, in the order of the packages' names.
    pub fn rules(&self) -> Result<RuleTable, AllocError>
        ensures { IfOk result (λ table. GrantsAs table (smack_rules self.now)) }
    {
        let rules = self.all_rules()?;
        let table = RuleTable::fold(self.template().allocator(), &rules)?;
        Ok(table)
    }

    /// The Smack rules of a package that is installed.
    pub fn package_rules(&self, package: &Ident) -> Result<Vec<Rule>, AllocError>
        requires { IsTrue (has_package self.now.registry «package».now) }
        ensures { IfOk result (λ rules. rules.items ≡ package_rules self.now «package».now) }
    {
        let rules = self.rules_of(package)?;
        Ok(rules)
    }

    // The rules of all packages. The installs of a package stand together, in the order of the packages' names.
    fn all_rules(&self) -> Result<Vec<Rule>, AllocError>
        ensures { IfOk result (λ rules. rules.items ≡ smack_rules self.now) }
    {
        let mut rules = Vec::new(self.template().allocator());
        let Some((first, rest)) = self.registry().installs().split_first() else {
            return Ok(rules);
        };
        self.append_rules(&mut rules, &first.package)?;
        self.append_later_rules(&mut rules, &first.package, rest)?;
        Ok(rules)
    }

    // The rules of the packages of these installs, but those of the package before, where that goes on.
    fn append_later_rules(
        &self,
        rules: &mut Vec<Rule>,
        before: &Ident,
        installs: &[Install],
    ) -> Result<(), AllocError>
        ensures { OnOk result (rules.new.items
            ≡ rules.old.items ++ list.flat_map (package_rules self.now) (later_packages before.now installs.now)) }
    {
        let mut last = before;
        for install in installs {
            if install.package != *last {
                self.append_rules(rules, &install.package)?;
                last = &install.package;
            }
        }
        Ok(())
    }

    fn append_rules(&self, rules: &mut Vec<Rule>, package: &Ident) -> Result<(), AllocError>
        ensures { OnOk result (rules.new.items ≡ rules.old.items ++ package_rules self.now «package».now) }
    {
        let mut more = self.rules_of(package)?;
        rules.append(&mut more)?;
        Ok(())
    }

    fn rules_of(&self, package: &Ident) -> Result<Vec<Rule>, AllocError>
        ensures { IfOk result (λ rules. rules.items ≡ package_rules self.now «package».now) }
    {
        let rules = self.template().rules_for(self.registry(), package)?;
        Ok(rules)
    }
}
