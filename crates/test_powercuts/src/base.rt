//! The statements that make a store: of version 3 with an account, of version 2, and of version 1, with the copies last or fourth, with
//! all that an account may have.

const BEGIN: &str = "
BEGIN;
CREATE TABLE meta (item TEXT NOT NULL PRIMARY KEY, value INTEGER NOT NULL) STRICT;
CREATE TABLE account (name BLOB NOT NULL PRIMARY KEY, address BLOB NOT NULL, salt BLOB NOT NULL, rounds INTEGER NOT NULL, digest BLOB NOT NULL, active BLOB, next_copy INTEGER NOT NULL, next_out INTEGER NOT NULL, next_notice INTEGER NOT NULL) STRICT;
CREATE TABLE script (owner BLOB NOT NULL REFERENCES account (name), name BLOB NOT NULL, text BLOB NOT NULL, PRIMARY KEY (owner, name)) STRICT;";

const LATER: &str = "
CREATE TABLE outgoing (owner BLOB NOT NULL REFERENCES account (name), id INTEGER NOT NULL, kind INTEGER NOT NULL, sender BLOB NOT NULL, target BLOB NOT NULL, message BLOB NOT NULL, PRIMARY KEY (owner, id)) STRICT;
CREATE TABLE reply (owner BLOB NOT NULL REFERENCES account (name), handle BLOB NOT NULL, sender BLOB NOT NULL, moment INTEGER NOT NULL, PRIMARY KEY (owner, handle, sender)) STRICT;
CREATE TABLE notice (owner BLOB NOT NULL REFERENCES account (name), id INTEGER NOT NULL, moment INTEGER NOT NULL, text BLOB NOT NULL, PRIMARY KEY (owner, id)) STRICT;";

const FOLDERS: &str = "
CREATE TABLE message (owner BLOB NOT NULL REFERENCES account (name), id INTEGER NOT NULL, bytes BLOB NOT NULL, PRIMARY KEY (owner, id)) STRICT;
CREATE TABLE copy (owner BLOB NOT NULL REFERENCES account (name), folder BLOB NOT NULL, n INTEGER NOT NULL, id INTEGER NOT NULL, flags BLOB NOT NULL, PRIMARY KEY (owner, folder, n), FOREIGN KEY (owner, id) REFERENCES message (owner, id)) STRICT;
CREATE INDEX copy_message ON copy (owner, id);";

const SECOND_FOLDERS: &str = "
CREATE TABLE message (owner BLOB NOT NULL REFERENCES account (name), id INTEGER NOT NULL, bytes BLOB NOT NULL, PRIMARY KEY (owner, id)) STRICT;
CREATE TABLE copy (owner BLOB NOT NULL REFERENCES account (name), folder BLOB NOT NULL, n INTEGER NOT NULL, id INTEGER NOT NULL, PRIMARY KEY (owner, folder, n), FOREIGN KEY (owner, id) REFERENCES message (owner, id)) STRICT;
CREATE INDEX copy_message ON copy (owner, id);";

const OLD_COPY: &str = "
CREATE TABLE copy (owner BLOB NOT NULL REFERENCES account (name), folder BLOB NOT NULL, n INTEGER NOT NULL, message BLOB NOT NULL, PRIMARY KEY (owner, folder, n)) STRICT;";

/// The account alice, alice@example.org, with the password `secret`, which is digested once, with the salt `salt`; no script is active.
const ACCOUNT: &str = "
INSERT INTO meta (item, value) VALUES ('version', 3);
COMMIT;
INSERT INTO account (name, address, salt, rounds, digest, active, next_copy, next_out, next_notice) VALUES (X'616c696365', X'616c696365406578616d706c652e6f7267', X'73616c74', 1, X'6b54881dd86e5502ea660c8a4ef2805229d71a6311efcabd5de0bec4ff4e5136', NULL, 1, 1, 1);";

/// The account alice with a script, which is active, one message in two folders, a second message in one, two rows of the queue, a reply
/// and a notice.
const OLD_ACCOUNT: &str = "
INSERT INTO meta (item, value) VALUES ('version', 1);
COMMIT;
INSERT INTO account (name, address, salt, rounds, digest, active, next_copy, next_out, next_notice) VALUES (X'616c696365', X'616c696365406578616d706c652e6f7267', X'73616c74', 1, X'6b54881dd86e5502ea660c8a4ef2805229d71a6311efcabd5de0bec4ff4e5136', X'6d61696e', 4, 3, 2);
INSERT INTO script (owner, name, text) VALUES (X'616c696365', X'6d61696e', X'6b6565703b');
INSERT INTO copy (owner, folder, n, message) VALUES (X'616c696365', X'61', 1, X'5375626a6563743a206f6e650d0a0d0a780d0a');
INSERT INTO copy (owner, folder, n, message) VALUES (X'616c696365', X'62', 2, X'5375626a6563743a206f6e650d0a0d0a780d0a');
INSERT INTO copy (owner, folder, n, message) VALUES (X'616c696365', X'494e424f58', 3, X'5375626a6563743a2074776f0d0a0d0a790d0a');
INSERT INTO outgoing (owner, id, kind, sender, target, message) VALUES (X'616c696365', 1, 1, X'626f62406578616d706c652e6e6574', X'6361726f6c406578616d706c652e636f6d', X'5375626a6563743a206f6e650d0a0d0a780d0a');
INSERT INTO outgoing (owner, id, kind, sender, target, message) VALUES (X'616c696365', 2, 2, X'', X'626f62406578616d706c652e6e6574', X'5375626a6563743a2074776f0d0a0d0a790d0a');
INSERT INTO reply (owner, handle, sender, moment) VALUES (X'616c696365', X'0168', X'626f62406578616d706c652e6e6574', 1700000000);
INSERT INTO notice (owner, id, moment, text) VALUES (X'616c696365', 1, 1700000000, X'746f6c64');";

/// The same as version 2 has it: the message of two folders is one row.
const SECOND_ACCOUNT: &str = "
INSERT INTO meta (item, value) VALUES ('version', 2);
COMMIT;
INSERT INTO account (name, address, salt, rounds, digest, active, next_copy, next_out, next_notice) VALUES (X'616c696365', X'616c696365406578616d706c652e6f7267', X'73616c74', 1, X'6b54881dd86e5502ea660c8a4ef2805229d71a6311efcabd5de0bec4ff4e5136', X'6d61696e', 4, 3, 2);
INSERT INTO script (owner, name, text) VALUES (X'616c696365', X'6d61696e', X'6b6565703b');
INSERT INTO message (owner, id, bytes) VALUES (X'616c696365', 1, X'5375626a6563743a206f6e650d0a0d0a780d0a');
INSERT INTO message (owner, id, bytes) VALUES (X'616c696365', 3, X'5375626a6563743a2074776f0d0a0d0a790d0a');
INSERT INTO copy (owner, folder, n, id) VALUES (X'616c696365', X'61', 1, 1);
INSERT INTO copy (owner, folder, n, id) VALUES (X'616c696365', X'62', 2, 1);
INSERT INTO copy (owner, folder, n, id) VALUES (X'616c696365', X'494e424f58', 3, 3);
INSERT INTO outgoing (owner, id, kind, sender, target, message) VALUES (X'616c696365', 1, 1, X'626f62406578616d706c652e6e6574', X'6361726f6c406578616d706c652e636f6d', X'5375626a6563743a206f6e650d0a0d0a780d0a');
INSERT INTO outgoing (owner, id, kind, sender, target, message) VALUES (X'616c696365', 2, 2, X'', X'626f62406578616d706c652e6e6574', X'5375626a6563743a2074776f0d0a0d0a790d0a');
INSERT INTO reply (owner, handle, sender, moment) VALUES (X'616c696365', X'0168', X'626f62406578616d706c652e6e6574', 1700000000);
INSERT INTO notice (owner, id, moment, text) VALUES (X'616c696365', 1, 1700000000, X'746f6c64');";

pub const CURRENT: [&str; 4] = [BEGIN, LATER, FOLDERS, ACCOUNT];

pub const SECOND: [&str; 4] = [BEGIN, LATER, SECOND_FOLDERS, SECOND_ACCOUNT];

pub const COPIES_LAST: [&str; 4] = [BEGIN, LATER, OLD_COPY, OLD_ACCOUNT];

pub const COPIES_FOURTH: [&str; 4] = [BEGIN, OLD_COPY, LATER, OLD_ACCOUNT];
