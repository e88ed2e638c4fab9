use group_config::MemberTable;

/// The head of a partition.
#[derive(Clone, Copy, Debug)]
pub(crate) struct Head {
    /// Its index among the members.
    pub(crate) member: usize,
    /// The last number of a change that was given in the partition.
    pub(crate) base: u64,
}

/// The members of one of both groups, and what is known of them.
#[derive(Drop)]
pub(crate) struct Group<'a> {
    /// What a person calls it.
    pub(crate) title: &'static str,
    /// Its members.
    pub(crate) members: &'a MemberTable,
    /// Which of them answered, by their indexes.
    pub(crate) there: Vec<bool>,
    /// The heads of its partitions.
    pub(crate) heads: Vec<Option<Head>>,
}

impl<'a> Group<'a> {
    /// What the member at an index is called.
    pub(crate) fn name_at(&self, x: usize) -> &'a str {
        match self.members.entries().get(x) {
            Some(entry) => entry.name.as_str(),
            None => "",
        }
    }

    /// Where clients reach the member at an index.
    pub(crate) fn client_at(&self, x: usize) -> &'a str {
        match self.members.entries().get(x) {
            Some(entry) => entry.client.as_str(),
            None => "",
        }
    }

    /// Where an operator reaches the member at an index.
    pub(crate) fn control_at(&self, x: usize) -> &'a str {
        match self.members.entries().get(x) {
            Some(entry) => entry.control.as_str(),
            None => "",
        }
    }

    /// Whether the member at an index answered.
    pub(crate) fn is_there(&self, x: usize) -> bool {
        match self.there.get(x) {
            Some(is_there) => *is_there,
            None => false,
        }
    }

    /// Whether the member at an index answers.
    pub(crate) fn note(&mut self, x: usize, answers: bool) {
        if let Some(is_there) = self.there.get_mut(x) {
            *is_there = answers;
        }
    }

    /// The head of a partition.
    pub(crate) fn head_of(&self, d: usize) -> Option<Head> {
        match self.heads.get(d) {
            Some(head) => *head,
            None => None,
        }
    }

    /// A partition has this head.
    pub(crate) fn set_head(&mut self, d: usize, head: Head) {
        if let Some(place) = self.heads.get_mut(d) {
            *place = Some(head);
        }
    }

    /// Whether each partition has a head.
    pub(crate) fn has_heads(&self) -> bool {
        self.heads.iter().all(|head| head.is_some())
    }

    /// How many members there are.
    pub(crate) fn len(&self) -> usize {
        self.members.entries().len()
    }

    /// How many members answered.
    pub(crate) fn count_there(&self) -> usize {
        self.there.iter().filter(|is_there| **is_there).count()
    }

    /// The index of a member behind this one, in a circle, that answered.
    pub(crate) fn next_there(&self, x: usize) -> usize {
        let count = self.there.len();
        'members: for step in 1..=count {
            let next = x.wrapping_add(step) % count;
            if self.is_there(next) {
                return next;
            }
        }
        x
    }
}
