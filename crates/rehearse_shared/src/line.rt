// A line of numbered words.
/// A line: the name of a call or an event, the number of what it is made on, and its arguments. Those that aren't there are empty.
#[derive(Clone, Copy)]
pub struct Line<'a> {
    pub name: &'a str,
    /// The number of a node, a server or a connection.
    pub number: &'a str,
    pub first: &'a str,
    pub second: &'a str,
    pub third: &'a str,
    pub fourth: &'a str,
    pub fifth: &'a str,
}

impl<'a> Line<'a> {
    /// The words of a line.
    pub fn read(text: &'a str) -> Line<'a> {
        let mut words = text.split(' ');
        let name = words.next().unwrap_or("");
        let number = words.next().unwrap_or("");
        let first = words.next().unwrap_or("");
        let second = words.next().unwrap_or("");
        let third = words.next().unwrap_or("");
        let fourth = words.next().unwrap_or("");
        let fifth = words.next().unwrap_or("");
        Line {
            name,
            number,
            first,
            second,
            third,
            fourth,
            fifth,
        }
    }
}
