// Sets as people read them: {1,2,3}.
use super::set::ReplicaSet;
use std::fmt;

impl fmt::Display for ReplicaSet {
    fn fmt<W: fmt::Write>(&self, f: &mut fmt::Formatter<W>) -> fmt::Result {
        f.write_str("{")?;
        let mut members = self.members();
        if let Some(first) = members.next() {
            write!(f, "{first}")?;
        }
        for replica in members {
            write!(f, ",{replica}")?;
        }
        f.write_str("}")
    }
}
