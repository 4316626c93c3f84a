// A layer over any host that refuses one request.
ghost use Rattle.std.specs.Prelude.{◌≡◌, ℕ, if◌then◌else◌, Some, Ok, Err, Option};
ghost use Rattle.host.specs.Meaning.{refusal};
ghost use Rattle.host.specs.Fail.{fail_model, fail_respond, fail_taken, layer_above, left_after, passes_on, raised};
ghost use Rattle.std.proofs.Common.{rules};

use crate::host::Host;
use crate::request::{HostFault, Request};
use crate::take::TakeRequest;

// The layer's own code. A fault has its host's number, which its callers are told.
const REFUSED: u16 = 9;

/// Passes a number of requests on to the host below, refuses the one after, and passes all later ones.
#[derive(Drop)]
pub struct FailLayer<H> {
    left: Option<u64>,
    below: H,
}

// One layer more, 255 at most.
fn above(layer: u8) -> u8
    ensures { result ≡ layer_above layer }
{
    layer.saturating_add(1)
}

// A fault from below has one layer more above it.
fn raise(mut fault: HostFault) -> HostFault
    ensures { result ≡ raised fault }
{
    // An arm for each: with the three patterns in one arm the proof did not close.
    match &mut fault {
        HostFault::Cut { layer, .. } => *layer = above(*layer),
        HostFault::Fill { layer, .. } => *layer = above(*layer),
        HostFault::Remove { layer, .. } => *layer = above(*layer),
    }
    fault
}

// Counts the request, and refuses it if its turn has come.
fn pass(left: &mut Option<u64>, request: Request) -> Result<(), HostFault>
    ensures answer { result ≡ (if passes_on left.old then Ok tt else Err (refusal request 9 0)) }
    ensures left { left.new ≡ left_after left.old }
{
    match *left {
        Some(0) => {
            *left = None;
            Err(request.refused(REFUSED))
        }
        Some(n) => {
            *left = Some(n - 1);
            Ok(())
        }
        None => Ok(()),
    }
}

impl<H> FailLayer<H> {
    /// Passes `passes` requests on to `below` before it refuses one.
    pub fn new(passes: u64, below: H) -> FailLayer<H>
        ensures { fail_model (λ h. h) result ≡ (Some passes, below) }
    {
        FailLayer {
            left: Some(passes),
            below,
        }
    }

    /// How many requests pass before the refusal, or none once it has come.
    pub fn left(&self) -> Option<u64>
        ensures { result ≡ (fail_model (λ h. h) self.now).0 }
    {
        self.left
    }

    /// The host below.
    pub fn below(&self) -> &H
        ensures { result.now ≡ (fail_model (λ h. h) self.now).1 }
    {
        &self.below
    }
}

impl<H: Host> Host for FailLayer<H> {
    ghost Model = { Option ℕ × H.Host.Model };

    ghost model = { fail_model H.Host.model };

    ghost respond = { fail_respond H.Host.respond };

    ghost extent = { λ m. H.Host.extent m.1 };

    ghost holds = { λ m. H.Host.holds m.1 };

    ghost slot = { λ m. H.Host.slot m.1 };

    ghost taken = { fail_taken H.Host.taken };

    ghost obeys = { Prim.search rules };

    ghost taking = { Prim.search rules };

    fn ask(&mut self, request: Request) -> Result<(), HostFault> {
        pass(&mut self.left, request)?;
        self.below.ask(request).map_err(raise)
    }

    fn length(&self) -> u64 {
        self.below.length()
    }

    fn segment_size(&self) -> u64 {
        self.below.segment_size()
    }
}

impl<H: TakeRequest> TakeRequest for FailLayer<H> {
    fn take_request(&mut self) -> Option<Request> {
        self.below.take_request()
    }
}
