// What a message says, as C reads it.

/// At most 255 bytes. All zeros is the empty text.
#[repr(C)]
#[derive(Clone, Copy)]
pub struct Text {
    pub count: u8,
    pub bytes: [u8; 255],
}

/// What a message of the service says, by its fields. What a message has not is 0, false or empty.
#[repr(C)]
#[derive(Clone, Copy)]
pub struct Said {
    pub commit: u64,
    pub value: u64,
    pub number: u32,
    pub kind: u16,
    pub operation: u8,
    pub rule: u8,
    pub allowed: bool,
    pub has_key: bool,
    pub metadata: Text,
    pub text: Text,
    pub client: Text,
    pub user: Text,
    pub privilege: Text,
}

impl Text {
    ghost use Rattle.std.specs.Prelude.{◌≡◌, ◌≤◌, [], length, take};
    ghost use Rattle.client_c.specs.Seen.{held};

    /// No bytes.
    pub(crate) fn clear(&mut self)
        ensures { held self.new ≡ [] }
    {
        self.count = 0;
    }

    /// A copy of the bytes, or of the first 255 where there are more.
    pub(crate) fn put(&mut self, bytes: &[u8])
        ensures { held self.new ≡ take 255 bytes.now }
    {
        if bytes.len() > 255 {
            self.put_short(&bytes[..255]);
            return;
        }
        self.put_short(bytes);
    }

    fn put_short(&mut self, bytes: &[u8])
        requires { length bytes.now ≤ 255 }
        ensures { held self.new ≡ bytes.now }
    {
        self.bytes[..bytes.len()].copy_from_slice(bytes);
        self.count = bytes.len() as u8;
    }
}

impl Said {
    ghost use Rattle.std.specs.Prelude.{◌≡◌};
    ghost use Rattle.client_c.specs.Seen.{seen, nothing};

    /// Nothing is said. What the texts held behind their counts stays.
    pub(crate) fn clear(&mut self)
        ensures { seen self.new ≡ nothing }
    {
        self.commit = 0;
        self.value = 0;
        self.number = 0;
        self.kind = 0;
        self.operation = 0;
        self.rule = 0;
        self.allowed = false;
        self.has_key = false;
        self.metadata.clear();
        self.text.clear();
        self.client.clear();
        self.user.clear();
        self.privilege.clear();
    }
}
