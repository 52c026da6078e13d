//! The setup that a script begins with which is made for trying a host.

/// A setup of one tenant with four users, a form and two contexts.
pub const HARBOUR: &str = "\
host = \"whistle 1\"
[[tenant]]
id = 1
name = \"Harbour City\"
salt = \"000102030405060708090a0b0c0d0e0f\"
offset = 0
quota = 50
notice_days = 7
[[tenant.user]]
id = 1
name = \"ada\"
role = \"recipient\"
password = \"ada-pass\"
enabled = true
may = [\"postpone\", \"share\", \"transfer\"]
[[tenant.user]]
id = 2
name = \"ben\"
role = \"recipient\"
password = \"ben-pass\"
enabled = true
may = []
[[tenant.user]]
id = 3
name = \"cleo\"
role = \"custodian\"
password = \"cleo-pass\"
enabled = true
may = []
[[tenant.user]]
id = 4
name = \"dan\"
role = \"admin\"
password = \"dan-pass\"
enabled = true
may = []
[[tenant.form]]
id = 1
form = '''{\"steps\":[{\"title\":\"Report\",\"fields\":[{\"id\":\"what\",\"label\":\"What happened\",\"kind\":\"text\",\"required\":true},{\"id\":\"cat\",\"label\":\"Category\",\"kind\":\"choice\",\"options\":[{\"id\":\"fraud\",\"label\":\"Fraud\"},{\"id\":\"other\",\"label\":\"Other\"}]},{\"id\":\"amount\",\"label\":\"Amount\",\"kind\":\"whole\",\"show\":{\"all\":[{\"field\":\"cat\",\"option\":\"fraud\"}]}},{\"id\":\"doc\",\"label\":\"Document\",\"kind\":\"file\"}]},{\"title\":\"Identity\",\"fields\":[{\"id\":\"name\",\"label\":\"Name\",\"kind\":\"text\",\"required\":true,\"identity\":true},{\"id\":\"phone\",\"label\":\"Phone\",\"kind\":\"text\",\"identity\":true}]}]}'''
[[tenant.context]]
id = 1
name = \"Fraud\"
form = 1
retention = 30
recipients = [1]
open = true
[[tenant.context]]
id = 2
name = \"Safety\"
form = 1
retention = 10
recipients = [2]
open = true
";
