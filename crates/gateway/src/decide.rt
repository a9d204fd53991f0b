// Decisions: a packet is read, and its destination is classified with its source address or with the socket it came in by.
ghost use Rattle.std.specs.Prelude.{◌≡◌};
ghost use Rattle.packets.specs.Datagram.{datagram};
ghost use Rattle.gateway.specs.Assurance.{kinds_in, Right, After, answer_of};
ghost use Rattle.gateway.specs.Decisions.{decided, Decides, goal, origin};
ghost use Rattle.gateway.specs.History.{Left};

use crate::gateway::Gateway;
use filters::directive::Directive;
use kinds::cost::Cost;
use kinds::ipv4::Ipv4;
use kinds::socket::Socket;
use kinds::written::Written;
use packets::PacketFault;

impl<'b, 'g, 'f, 'n, C: Cost> Gateway<'b, 'g, 'f, 'n, Ipv4, Ipv4, C> {
    // Which built filter decides a packet, by its destination and its source address. A refused packet gives its fault.
    pub fn decide(&self, packet: &[u8]) -> Result<(Option<(u16, Directive)>, u32), PacketFault>
        ensures answer { (l : Left C) → After (kinds_in self.now) l self.now → result ≡ decided (λ p. answer_of (kinds_in self.now) l.built (goal p) (origin p)) (datagram packet.now) }
        ensures right { (l : Left C) → After (kinds_in self.now) l self.now → Decides (λ p a. Right C.Cost.order 32 32 l.built (goal p) (origin p) a) (datagram packet.now) result }
    {
        let read = packets::read(packet)?;
        Ok(self.classify(&read.destination(), &read.source()))
    }
}

impl<'b, 'g, 'f, 'n, C: Cost> Gateway<'b, 'g, 'f, 'n, Ipv4, Socket, C> {
    // Which built filter decides a packet, by its destination and the socket it came in by. A refused packet gives its fault.
    pub fn decide_from(
        &self,
        socket: &Socket,
        packet: &[u8],
    ) -> Result<(Option<(u16, Directive)>, u32), PacketFault>
        ensures answer { (l : Left C) → After (kinds_in self.now) l self.now → result ≡ decided (λ p. answer_of (kinds_in self.now) l.built (goal p) ((kinds_in self.now).src.string socket.now)) (datagram packet.now) }
        ensures right { (l : Left C) → After (kinds_in self.now) l self.now → Decides (λ p a. Right C.Cost.order 32 16 l.built (goal p) ((kinds_in self.now).src.string socket.now) a) (datagram packet.now) result }
    {
        let read = packets::read(packet)?;
        Ok(self.classify(&read.destination(), socket))
    }
}
