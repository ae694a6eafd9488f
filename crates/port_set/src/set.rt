//! Ports by number.

ghost use Rattle.std.specs.Prelude.{◌≡◌, ◌≢◌, ◌↔◌, ℕ, ◌<◌, ◌≤◌, map, length, slice_get, option_map, is_err};
ghost use Rattle.mpy_io.specs.Ports.{Puts, Gets};
ghost use Rattle.port_set.specs.Calls.{CallsOne};
ghost use Rattle.port_set.specs.Counts.{CountsKeep};

use crate::PortFault;
use mpy_io::Port;
use std::marker::Model;

/// A list of ports, each called by its place, counted from 0. It is a `PortSet` of boxed ports where no type is named.
#[derive(Drop)]
pub struct PortSet<P = Box<dyn Port>> {
    ports: Vec<P>,
}

impl<P> Model for PortSet<P> {
    ghost use Rattle.std.specs.Prelude.{List};

    ghost Value = { List P };

    ghost view = { λ s. s.ports.items };
}

impl<P: Port> PortSet<P> {
    /// A set of these ports, numbered from 0 in their order.
    pub fn new(ports: Vec<P>) -> PortSet<P>
        ensures { result ≡ ports.items }
    {
        PortSet { ports }
    }

    /// How many ports there are.
    pub fn len(&self) -> usize
        ensures { result ≡ length self.now }
    {
        self.ports.len()
    }

    /// Writes a number to port `i`.
    pub fn put(&mut self, i: usize, n: i32) -> Result<(), PortFault>
        ensures no_port { (result ≡ Err PortFault.NoPort) ↔ (length self.old ≤ i) }
        ensures unchanged { length self.old ≤ i → self.new ≡ self.old }
        ensures call { i < length self.old
            → CallsOne (map P.seen self.old) (map P.seen self.new) i (λ old new. Puts old new n (is_err result)) }
        ensures others { (k : ℕ) → k ≢ i → slice_get self.new k ≡ slice_get self.old k }
        ensures faults { CountsKeep (map P.seen self.old) (map P.seen self.new) }
    {
        let port = self.ports.get_mut(i).ok_or(PortFault::NoPort)?;
        Ok(port.put(n)?)
    }

    /// Takes the first pending answer of port `i`. None says that no answer is pending there.
    pub fn get(&mut self, i: usize) -> Result<Option<i32>, PortFault>
        ensures no_port { (result ≡ Err PortFault.NoPort) ↔ (length self.old ≤ i) }
        ensures unchanged { length self.old ≤ i → self.new ≡ self.old }
        ensures call { i < length self.old
            → CallsOne (map P.seen self.old) (map P.seen self.new) i (λ old new. Gets old new result) }
        ensures others { (k : ℕ) → k ≢ i → slice_get self.new k ≡ slice_get self.old k }
        ensures faults { CountsKeep (map P.seen self.old) (map P.seen self.new) }
    {
        let port = self.ports.get_mut(i).ok_or(PortFault::NoPort)?;
        Ok(port.get()?)
    }

    /// How many calls of port `i` have failed so far.
    pub fn faults_of(&self, i: usize) -> Option<u64>
        ensures { result ≡ option_map (λ port. (P.seen port).count) (slice_get self.now i) }
    {
        Some(self.ports.get(i)?.faults())
    }

    /// Hands the ports back, in their order.
    pub fn into_ports(self) -> Vec<P>
        ensures { result.items ≡ self }
    {
        let PortSet { ports } = self;
        ports
    }
}
