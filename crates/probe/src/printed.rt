// What the program prints.
ghost use Rattle.printing.specs.Printed.{Prints, printed_text};

#[unsafe(no_mangle)]
pub extern "C" fn probe_printed(text: &[u8], out: &mut [u8]) -> usize
    ensures { Prints out.old (printed_text text.now) result out.new }
{
    printing::printed(text, out)
}
