// The calls for other languages that take a name or its plain form, and no design: two of one shape, as include/skytassel.h declares them.
#![tactic(auto)]

ghost use Rattle.std.specs.Prelude.{◌≡◌, length};
ghost use Rattle.rules.specs.Plain.{turned, turned_back};
ghost use Rattle.plain.specs.Put.{wrote};

use card::LengthAnswer;

#[unsafe(no_mangle)]
pub extern "C" fn skytassel_plain_form(name: &[u8], out: &mut [u8]) -> LengthAnswer
    ensures { (result.number, result.length, out.new) ≡ wrote out.old (turned (length out.old) name.now) }
{
    let turned = plain::plain_form(name, out);
    LengthAnswer {
        number: turned.number,
        length: turned.length,
    }
}

#[unsafe(no_mangle)]
pub extern "C" fn skytassel_name_of(form: &[u8], out: &mut [u8]) -> LengthAnswer
    ensures { (result.number, result.length, out.new) ≡ wrote out.old (turned_back (length out.old) form.now) }
{
    let turned = plain::name_of(form, out);
    LengthAnswer {
        number: turned.number,
        length: turned.length,
    }
}
