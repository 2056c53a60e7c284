// Exported: a job's text in, the program's text out.
ghost use Rattle.slots.specs.Exports.{TextCoded};

// `planning::print_text`.
pub fn slots_print_text(text: &[u8], out: &mut [u8]) -> u64
    ensures { TextCoded text.now out.old result out.new }
{
    codes::answer(planning::print_text(text, out))
}
