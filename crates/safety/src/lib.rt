// What is promised of every run, over every lawful host.
#![tactic(auto)]

ghost use Rattle.rules.specs.Safety.{AlwaysSafe};

use host::Host;

/// Stands for the theorem: over this host, after any calls to a new accountant, the next call is safe.
pub fn every_run_is_safe<H: Host>()
    ensures { AlwaysSafe H.Host.respond H.Host.slot H.Host.extent H.Host.holds }
{}
