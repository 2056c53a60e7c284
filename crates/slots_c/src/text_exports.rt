// Exported: a job's text in, the program's text out.
ghost use Rattle.slots.specs.Exports.{TextCoded};

// `planning::print_text`.
#[unsafe(no_mangle)]
pub extern "C" fn slots_print_text(text: &[u8], out: &mut [u8]) -> u64
    ensures { TextCoded text.now out.old result out.new }
{
    slots::text_exports::slots_print_text(text, out)
}
