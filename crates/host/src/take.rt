// Taking the requests that a host wrote down.
ghost use Rattle.std.specs.Prelude.{◌≡◌};

use crate::host::Host;
use crate::request::Request;

pub trait TakeRequest: Host {
    fn take_request(&mut self) -> Option<Request>
        ensures { (result, Self.Host.model self.new) ≡ Self.Host.taken (Self.Host.model self.old) };
}
