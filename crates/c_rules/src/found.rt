//! What a walk over expressions collects.

ghost use Rattle.std.specs.Prelude.{◌≡◌, ◌+◌, ◌<◌, ◌≤◌, ◌^◌, [], None, Some, IfOk, List, length};
ghost use Rattle.c_ir.specs.Sited.{Extends};
ghost use Rattle.c_ir.specs.Numbers.{count, own_site};
ghost use Rattle.c_ir.specs.declared.tree.SiteInfo.{SiteInfo as Info};
ghost use Rattle.c_rules.specs.Breaches.{least, one, only_if};
ghost use Rattle.c_rules.specs.Typing.{Types, site_for};
ghost use Rattle.c_rules.specs.declared.breach.Fault.TheVariants as Kind;

use crate::breach::{Breach, Fault};
use c_ir::{Checks, SiteInfo};
use fc_base::{Name, PointId, SiteId};
use sqlite_items::Items;
use std::alloc::{AllocError, Global};

/// The checked operators so far, and the first breach so far.
#[derive(Debug, Drop)]
pub struct Found {
    pub sites: Items<SiteInfo>,
    pub first: Option<Breach>,
}

impl Found {
    /// Nothing found.
    pub fn new(alloc: Global) -> Found
        ensures { result ≡ record { sites = []; first = None } }
    {
        Found {
            sites: Items::new(alloc),
            first: None,
        }
    }

    /// Nothing but the first breach so far, which moves there: what is found from now on has sites apart.
    pub fn apart(&mut self, alloc: Global) -> Found
        ensures value { result ≡ record { sites = []; first = self.old.first } }
        ensures sites { self.new.sites ≡ self.old.sites }
    {
        Found {
            sites: Items::new(alloc),
            first: self.first.take(),
        }
    }

    /// Notes a breach.
    pub fn note(&mut self, at: u32, fault: Fault)
        ensures first { self.new.first ≡ least self.old.first (one at fault) }
        ensures sites { self.new.sites ≡ self.old.sites }
    {
        let breach = Breach { at, fault };
        let is_sooner = match &self.first {
            None => true,
            Some(first) => breach.is_before(first),
        };
        if is_sooner {
            self.first = Some(breach);
        }
    }

    /// Notes a breach where `holds`.
    pub fn note_if(&mut self, holds: bool, at: u32, fault: Fault)
        ensures first { self.new.first ≡ least self.old.first (only_if holds at fault) }
        ensures sites { self.new.sites ≡ self.old.sites }
    {
        if holds {
            self.note(at, fault);
        }
    }

    /// Notes that a name isn't declared.
    pub fn note_unknown(&mut self, alloc: Global, at: u32, name: &Name) -> Result<(), AllocError>
        ensures first { IfOk result (λ _. self.new.first ≡ least self.old.first (one at (Kind.Unknown name.now))) }
        ensures sites { self.new.sites ≡ self.old.sites }
    {
        let name = name.copy(alloc)?;
        self.note(at, Fault::Unknown(name));
        Ok(())
    }

    /// Notes that a name is declared twice.
    pub fn note_twice(&mut self, alloc: Global, at: u32, name: &Name) -> Result<(), AllocError>
        ensures first { IfOk result (λ _. self.new.first ≡ least self.old.first (one at (Kind.Twice name.now))) }
        ensures sites { self.new.sites ≡ self.old.sites }
    {
        let name = name.copy(alloc)?;
        self.note(at, Fault::Twice(name));
        Ok(())
    }

    /// The number of an operator at this point, where it has checks.
    #[tactic(auto, unfolding(crate::specs::Typing::site_for), using(crate::proofs::Sited::extends_less))]
    pub(crate) fn site(
        &mut self,
        point: PointId,
        checks: Checks,
    ) -> Result<Option<SiteId>, AllocError>
        requires { length self.old.sites < 2 ^ 32 }
        ensures value { Types (site_for point checks self.old.sites) result self.new.sites }
        ensures room { IfOk result (λ _. length self.new.sites ≤ length self.old.sites + 1) }
        ensures first { self.new.first ≡ self.old.first }
        ensures numbered { IfOk result (λ n. count (length self.old.sites) (own_site n) ≡ Some (length self.new.sites)) }
        ensures grows { IfOk result (λ _. (infos : List Info) → Extends infos self.new.sites → Extends infos self.old.sites) }
    {
        if checks.first.is_none() {
            return Ok(None);
        }
        let number = self.sites.len() as u32;
        self.sites.push(SiteInfo { point, checks })?;
        Ok(Some(SiteId(number)))
    }
}
