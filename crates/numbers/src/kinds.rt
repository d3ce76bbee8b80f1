// Module, wire, memory and cell numbers are kinds that can't be mixed. A bit of a signal has a code in the table of bits.
ghost use Rattle.std.specs.Prelude.{◌≡◌};
ghost use Rattle.rules.specs.Layout.{bit_code};
ghost use Rattle.numbers.specs.Kinds.{bit_of, bit_at, Valid};

// The codes of constant bits: the digits have those from 0.
pub const DIGIT_CODES: u32 = 6;

// The codes of each wire: one for each bit that a wire may have.
pub const WIRE_CODES: u32 = 2048;

#[derive(Clone, Copy)]
pub struct ModuleNumber(pub u32);

#[derive(Clone, Copy)]
pub struct WireNumber(pub u32);

#[derive(Clone, Copy)]
pub struct MemoryNumber(pub u32);

#[derive(Clone, Copy)]
pub struct CellNumber(pub u32);

// A constant bit by its code, 0 to 5; or a wire of the module and a bit of it.
#[derive(Clone, Copy)]
pub enum SignalBit {
    Digit(u8),
    Wire(WireNumber, u32),
}

// A bit's code in the table of bits: the digits have 0 to 5, then each wire has 2,048 codes.
pub fn encode(b: SignalBit) -> u32
    requires { Valid b }
    ensures { result ≡ bit_code (bit_of b) }
{
    match b {
        SignalBit::Digit(d) => d as u32,
        SignalBit::Wire(w, i) => {
            let n = w.0;
            DIGIT_CODES + WIRE_CODES * n + i
        }
    }
}

// The bit of a code. A wire's number may be past those that a module has.
pub fn decode(c: u32) -> SignalBit
    ensures { result ≡ bit_at c }
{
    if c < DIGIT_CODES {
        SignalBit::Digit(c as u8)
    } else {
        let d = c - DIGIT_CODES;
        SignalBit::Wire(WireNumber(d / WIRE_CODES), d % WIRE_CODES)
    }
}
