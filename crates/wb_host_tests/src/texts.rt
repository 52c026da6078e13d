//! The text of a setup.

use std::alloc::{AllocError, Global};

// A setup of one tenant with four users, a form and two contexts, in parts.
const HARBOUR: &[&str] = &[
    "host = \"whistle 1\"\n[[tenant]]\nid = 1\nname = \"Harbour City\"\nsalt = \"000102030405060708090a0b0c0d0e0f\"\noffset = 0\nquota = 50\nnotice_days = 7\n",
    "[[tenant.user]]\nid = 1\nname = \"ada\"\nrole = \"recipient\"\npassword = \"ada-pass\"\nenabled = true\nmay = [\"postpone\", \"share\", \"transfer\"]\n",
    "[[tenant.user]]\nid = 2\nname = \"ben\"\nrole = \"recipient\"\npassword = \"ben-pass\"\nenabled = true\nmay = []\n",
    "[[tenant.user]]\nid = 3\nname = \"cleo\"\nrole = \"custodian\"\npassword = \"cleo-pass\"\nenabled = true\nmay = []\n",
    "[[tenant.user]]\nid = 4\nname = \"dan\"\nrole = \"admin\"\npassword = \"dan-pass\"\nenabled = true\nmay = []\n",
    "[[tenant.form]]\nid = 1\nform = '''{\"steps\":[{\"title\":\"Report\",\"fields\":[{\"id\":\"what\",\"label\":\"What happened\",\"kind\":\"text\",\"required\":true},{\"id\":\"cat\",\"label\":\"Category\",\"kind\":\"choice\",\"options\":[{\"id\":\"fraud\",\"label\":\"Fraud\"},{\"id\":\"other\",\"label\":\"Other\"}]},",
    "{\"id\":\"amount\",\"label\":\"Amount\",\"kind\":\"whole\",\"show\":{\"all\":[{\"field\":\"cat\",\"option\":\"fraud\"}]}},{\"id\":\"doc\",\"label\":\"Document\",\"kind\":\"file\"}]},",
    "{\"title\":\"Identity\",\"fields\":[{\"id\":\"name\",\"label\":\"Name\",\"kind\":\"text\",\"required\":true,\"identity\":true},{\"id\":\"phone\",\"label\":\"Phone\",\"kind\":\"text\",\"identity\":true}]}]}'''\n",
    "[[tenant.context]]\nid = 1\nname = \"Fraud\"\nform = 1\nretention = 30\nrecipients = [1]\nopen = true\n",
    "[[tenant.context]]\nid = 2\nname = \"Safety\"\nform = 1\nretention = 10\nrecipients = [2]\nopen = true\n",
];

/// A setup of one tenant with four users, a form and two contexts.
pub fn sample_setup(alloc: Global) -> Result<String, AllocError> {
    let mut text = String::new(alloc);
    for part in HARBOUR {
        text.push_str(part)?;
    }
    Ok(text)
}
