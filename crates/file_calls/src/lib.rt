// The calls for other languages that are lent a file and no design memory. Number 0 is none.
#![tactic(auto)]

ghost use Rattle.std.specs.Prelude.{◌≡◌, pos};
ghost use Rattle.rules.specs.Reading.{read, checked};
ghost use Rattle.rules.specs.Quick.{quick_width, quick_index};
ghost use Rattle.one_wire.specs.Asked.{told};

use card::Answer;
use numbers::kinds::ModuleNumber;
use one_wire::{index_of, width_of};
use reader::check;

#[repr(C)]
#[derive(Clone, Copy)]
pub struct WidthOfAnswer {
    pub number: u32,
    pub place: u32,
    pub width: u32,
}

#[repr(C)]
#[derive(Clone, Copy)]
pub struct IndexOfAnswer {
    pub number: u32,
    pub place: u32,
    pub index: i64,
}

#[unsafe(no_mangle)]
pub extern "C" fn skytassel_check(f: &[u8]) -> Answer
    ensures { (result.number, result.place) ≡ checked (read f.now) }
{
    let found = check(f);
    Answer {
        number: found.number,
        place: found.place,
    }
}

#[unsafe(no_mangle)]
pub extern "C" fn skytassel_width_of(f: &[u8], m: u32, name: &[u8]) -> WidthOfAnswer
    ensures { (result.number, result.place, result.width) ≡ told 0 (quick_width f.now m name.now) }
{
    let wide = width_of(f, ModuleNumber(m), name);
    WidthOfAnswer {
        number: wide.number,
        place: wide.place,
        width: wide.width,
    }
}

#[unsafe(no_mangle)]
pub extern "C" fn skytassel_index_of(f: &[u8], m: u32, name: &[u8], bit: u32) -> IndexOfAnswer
    ensures { (result.number, result.place, result.index) ≡ told (pos 0) (quick_index f.now m name.now bit) }
{
    let given = index_of(f, ModuleNumber(m), name, bit);
    IndexOfAnswer {
        number: given.number,
        place: given.place,
        index: given.index,
    }
}
