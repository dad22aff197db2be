ghost use Rattle.std.specs.Prelude.{◌≡◌, ◌<◌, length};
ghost use Rattle.flat_net.specs.Patches.{Netlist};
ghost use Rattle.cell_step.specs.Readings.{Readings, IsOutput, IsSwitch};

use level_range::{Conduct, Range};

/// What cells of a netlist read in a pass. Contracts see the netlist, and what each call answers.
pub trait View {
    /// The netlist whose cells read.
    ghost netlist: { Self → Netlist };

    /// What they read.
    ghost readings: { Self → Readings };

    /// What an element drives at an output pin, by its number among the outputs.
    fn drive(&self, element: u32, pin: u32) -> Range
        requires { IsOutput (netlist self.now).parts element pin }
        ensures { result ≡ (readings self.now).drive element pin };

    /// What a bidirectional switch conducts.
    fn conduct(&self, element: u32) -> Conduct
        requires { IsSwitch (netlist self.now).parts element }
        ensures { result ≡ (readings self.now).conduct element };

    /// What is seen of a net.
    fn seen(&self, net: u32) -> Range
        requires { net < length (netlist self.now).parts.nets }
        ensures { result ≡ (readings self.now).seen net };

    /// The input in force at a net: z where the net is no input of the netlist.
    fn input(&self, net: u32) -> Range
        requires { net < length (netlist self.now).parts.nets }
        ensures { result ≡ (readings self.now).input net };
}
