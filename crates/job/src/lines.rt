// The lines that are printed.
ghost use Rattle.std.specs.Prelude.{◌≡◌, ◌+◌, ◌≤◌, length};
ghost use Rattle.treejudge.specs.JudgeCall.{name_room};
ghost use Rattle.job.specs.Ascii.{ascii};
ghost use Rattle.job.specs.JobCall.{digits, five_lines, line, node_text, refusal_text, text_of, text_room, yes_no};
ghost use Rattle.job.specs.Inner.TextCode.{Appends, finding_of};

use crate::call::Text;
use tree::nodes::Tree;
use treejudge::judge::TreeAnswer;

impl Text {
    // A line with `yes` or `no`: the verdict is a byte of a C call's answer, 1 for yes.
    fn append_yes_no(&mut self, label: &[u8], verdict: u8)
        requires { self.old.length + (length label.now + 4) ≤ text_room }
        ensures { Appends self.old (line label.now (yes_no verdict)) (length label.now + 4) self.new }
    {
        self.append(label);
        if verdict == 1 {
            self.append(b"yes\n")
        } else {
            self.append(b"no\n")
        }
    }

    // A line with a number.
    fn append_numbered(&mut self, label: &[u8], number: u64)
        requires { self.old.length + (length label.now + 21) ≤ text_room }
        ensures { Appends self.old (line label.now (digits number)) (length label.now + 21) self.new }
    {
        self.append(label);
        self.append_number(number);
        self.append(b"\n");
    }

    // The line with the node: "numbers joined by dots, `-` for the root, the word `none` on no".
    fn append_node(&mut self, tree: TreeAnswer, names: [u8; Tree::NAME])
        requires { (tree.verdict ≡ 1 → tree.length ≤ name_room) × (self.old.length + 53 ≤ text_room) }
        ensures { Appends self.old (line (ascii "node ") (node_text (finding_of tree names))) 34 self.new }
    {
        self.append(b"node ");
        if tree.verdict == 1 {
            self.append_name(&names[..usize::from(tree.length)]);
            self.append(b"\n");
        } else {
            self.append(b"none\n");
        }
    }
}

// "five lines: verdict, entry, period, node .., plain verdict". The names have their length beside them in the C call's answer.
pub fn five_lines(tree: TreeAnswer, names: [u8; Tree::NAME], plain: u8) -> Text
    requires { tree.verdict ≡ 1 → tree.length ≤ name_room }
    ensures { result ≡ text_of (five_lines tree.entry tree.period (finding_of tree names) plain) }
{
    let mut text = Text::empty();
    text.append_yes_no(b"verdict ", tree.verdict);
    text.append_numbered(b"entry ", tree.entry);
    text.append_numbered(b"period ", tree.period);
    text.append_node(tree, names);
    text.append_yes_no(b"plain ", plain);
    text
}

// "A refusal prints one line, as `refused 5`." The number is that of an answer for C.
pub fn refusal_line(number: u8) -> Text
    ensures { result ≡ text_of (refusal_text number) }
{
    let mut text = Text::empty();
    text.append_numbered(b"refused ", u64::from(number));
    text
}
